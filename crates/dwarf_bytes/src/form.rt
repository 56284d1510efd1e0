//! Attribute forms and the layouts of their values (DWARF 5, 7.5.6).

ghost use Rattle.std.specs.Prelude.{◌≡◌};
ghost use Rattle.dwarf_bytes.specs.Forms.{form_of};

use crate::constants::*;

/// The width of a number in bytes.
#[derive(Clone, Copy, Debug, PartialEq, Eq)]
pub enum Width {
    One,
    Two,
    Three,
    Four,
    Eight,
}

/// The layout of a value.
#[derive(Clone, Copy, Debug, PartialEq, Eq)]
pub enum ValueLayout {
    /// A number of the given width.
    Fixed(Width),
    /// An offset into a section, as wide as the unit's format says.
    Offset,
    /// No bytes: the number 1.
    Present,
    /// A signed LEB128 number.
    Signed,
    /// An unsigned LEB128 number.
    Unsigned,
    /// A NUL-terminated string.
    Text,
    /// Sixteen uninterpreted bytes.
    Sixteen,
    /// A block: a length of the given width, then that many bytes.
    Block(Width),
    /// A block: an unsigned LEB128 length, then that many bytes.
    LongBlock,
}

/// Where a form's value is encoded, and how.
#[derive(Clone, Copy, Debug, PartialEq, Eq)]
pub enum Form {
    /// The value is in the entry, in this layout.
    Direct(ValueLayout),
    /// The value is in the abbreviation declaration (DW_FORM_implicit_const).
    ImplicitConst,
    /// The actual form precedes the value in the entry (DW_FORM_indirect).
    Indirect,
}

impl Form {
    /// Returns the form with a number, or `None` if the form is not supported.
    // Inlined into other crates: each attribute of a table asks for its form two or three times.
    #[inline(always)]
    pub fn of(number: u64) -> Option<Form>
        ensures { result ≡ form_of number }
    {
        let layout = match number {
            DW_FORM_DATA1 | DW_FORM_FLAG | DW_FORM_REF1 | DW_FORM_STRX1 | DW_FORM_ADDRX1 => {
                ValueLayout::Fixed(Width::One)
            }
            DW_FORM_DATA2 | DW_FORM_REF2 | DW_FORM_STRX2 | DW_FORM_ADDRX2 => {
                ValueLayout::Fixed(Width::Two)
            }
            DW_FORM_STRX3 | DW_FORM_ADDRX3 => ValueLayout::Fixed(Width::Three),
            DW_FORM_DATA4 | DW_FORM_REF4 | DW_FORM_STRX4 | DW_FORM_ADDRX4 => {
                ValueLayout::Fixed(Width::Four)
            }
            DW_FORM_ADDR | DW_FORM_DATA8 | DW_FORM_REF8 | DW_FORM_REF_SIG8 => {
                ValueLayout::Fixed(Width::Eight)
            }
            DW_FORM_STRP | DW_FORM_REF_ADDR | DW_FORM_SEC_OFFSET | DW_FORM_LINE_STRP => {
                ValueLayout::Offset
            }
            DW_FORM_FLAG_PRESENT => ValueLayout::Present,
            DW_FORM_SDATA => ValueLayout::Signed,
            DW_FORM_UDATA
            | DW_FORM_REF_UDATA
            | DW_FORM_STRX
            | DW_FORM_ADDRX
            | DW_FORM_LOCLISTX
            | DW_FORM_RNGLISTX => ValueLayout::Unsigned,
            DW_FORM_STRING => ValueLayout::Text,
            DW_FORM_DATA16 => ValueLayout::Sixteen,
            DW_FORM_BLOCK1 => ValueLayout::Block(Width::One),
            DW_FORM_BLOCK2 => ValueLayout::Block(Width::Two),
            DW_FORM_BLOCK4 => ValueLayout::Block(Width::Four),
            DW_FORM_BLOCK | DW_FORM_EXPRLOC => ValueLayout::LongBlock,
            DW_FORM_INDIRECT => return Some(Form::Indirect),
            DW_FORM_IMPLICIT_CONST => return Some(Form::ImplicitConst),
            _ => return None,
        };
        Some(Form::Direct(layout))
    }
}

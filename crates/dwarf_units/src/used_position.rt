//! The positions of used attributes after attributes of a fixed size (DWARF 5, 7.5.3).

ghost use Rattle.std.specs.Prelude.{◌≡◌};
ghost use Rattle.dwarf_units.specs.Private.FixedSizes.{used_position, value_in};

use crate::attributes::{AttributeValue, number_of};
use crate::fixed_sizes::width_in;
use crate::used_name::UsedName;
use dwarf_bytes::{Content, Cursor, Form, Format, Width};
use dwarf_forms::AttributeSpecification;

/// The position of a used attribute.
#[derive(Clone, Copy)]
pub(crate) struct UsedPosition {
    pub(crate) name: UsedName,
    pub(crate) form: u64,
    pub(crate) value: UsedValue,
}

/// Where the value of a used attribute is.
#[derive(Clone, Copy)]
pub(crate) enum UsedValue {
    /// The declaration has the value (DW_FORM_implicit_const).
    Constant(u64),
    /// The entry has the value in this width, this number of bytes after the start of its first
    /// attribute.
    At(u16, Width),
}

impl UsedPosition {
    /// Returns the position of an attribute `offset` bytes after the first one, if it is used and
    /// its size is fixed.
    pub(crate) fn of(
        format: Format,
        offset: u16,
        specification: &AttributeSpecification,
    ) -> Option<UsedPosition>
        ensures { result ≡ used_position format offset specification.now }
    {
        let name = UsedName::of(specification.name)?;
        let form = specification.form;
        let value = match Form::of(form)? {
            Form::Direct(layout) => UsedValue::At(offset, width_in(format, layout)?),
            Form::ImplicitConst => {
                UsedValue::Constant(number_of(Content::Signed(specification.constant?), 0))
            }
            Form::Indirect => return None,
        };
        Some(UsedPosition { name, form, value })
    }

    /// Returns the attribute in the entry whose first attribute is at the cursor.
    // Inlined: called for each attribute of an entry that is re-read.
    #[inline(always)]
    pub(crate) fn read(&self, first: &Cursor) -> AttributeValue
        ensures { result ≡ value_in first.now.bytes first.now.place self.now }
    {
        let number = match self.value {
            UsedValue::Constant(number) => number,
            UsedValue::At(offset, width) => first.number_after(offset, width).unwrap_or(0),
        };
        AttributeValue {
            form: self.form,
            number,
        }
    }
}

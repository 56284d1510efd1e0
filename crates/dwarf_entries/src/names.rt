//! The strings of names (DWARF 5, 2.15 and 7.5.5).

ghost use Rattle.std.specs.Prelude.{◌≡◌};
ghost use Rattle.dwarf_entries.specs.{Names.{text_in, text_of}, Private.Passes.str_offsets_at};
ghost use Rattle.dwarf_entries.specs.Private.StringSections.{AreStringSections};
ghost use Rattle.dwarf_walk.specs.Sections.{sections_of};

use crate::string_sections::{StringSection, StringSections};
use crate::text_offset::TextOffset;
use dwarf_bytes::constants::{DW_FORM_LINE_STRP, DW_FORM_STRING, DW_FORM_STRP};
use dwarf_bytes::{Cause, Section, TableKind};
use dwarf_ranges::{Bases, Table, item_at};
use dwarf_units::AttributeValue;
use dwarf_walk::Sections;

/// Returns the string that a value refers to. `unit` is the index of the unit that contains the
/// value, and `bases` has the bases of each unit.
// Inlined: called for each name.
#[inline(always)]
pub(crate) fn text_of(
    sections: &Sections<'_>,
    strings: &StringSections<'_>,
    bases: &[Bases],
    unit: usize,
    value: AttributeValue,
) -> Result<TextOffset, Cause>
    requires { AreStringSections (sections_of sections.now) strings.now }
    ensures { result ≡ text_of (sections_of sections.now) (str_offsets_at bases.now unit) value }
{
    let number = value.number;
    // Tested first, because most names have this form.
    if value.form == DW_FORM_STRP {
        return text_in(Section::DebugStr, &strings.str, number);
    }
    match value.form {
        DW_FORM_STRING => text_in(Section::DebugInfo, &strings.info, number),
        DW_FORM_LINE_STRP => text_in(Section::DebugLineStr, &strings.line_str, number),
        _ => {
            let offset = item_at(
                TableKind::StrOffsets,
                sections.debug_str_offsets,
                str_offsets_at(bases, unit),
                number,
            )?;
            text_in(Section::DebugStr, &strings.str, offset)
        }
    }
}

/// Returns the string offsets table of the unit at an index, if it has one.
fn str_offsets_at(bases: &[Bases], unit: usize) -> Option<Table>
    ensures { result ≡ str_offsets_at bases.now unit }
{
    bases.get(unit)?.str_offsets
}

/// Returns the string at an offset of a section. Fails if no NUL follows.
// Inlined: called for each name.
#[inline(always)]
fn text_in(name: Section, section: &StringSection<'_>, offset: u64) -> Result<TextOffset, Cause>
    ensures { result ≡ text_in name section.now offset }
{
    let offset = section.text_at(offset)?;
    Ok(TextOffset {
        section: name,
        offset,
    })
}

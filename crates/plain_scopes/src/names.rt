//! The names of an entry (DWARF 5, 2.15 and 3.3.8).

ghost use Rattle.std.specs.Prelude.{◌≡◌};
ghost use Rattle.dwarf_walk.specs.Sections.{sections_of};
ghost use Rattle.dwarf_entries.specs.Names.{text_in, text_of, name_on};
ghost use Rattle.plain_scopes.specs.Names.{GivesNames};

use crate::references::{Member, chain};
use crate::units::CompilationUnit;
use dwarf_bytes::constants::{
    DW_AT_LINKAGE_NAME, DW_AT_NAME, DW_FORM_LINE_STRP, DW_FORM_STRING, DW_FORM_STRP,
};
use dwarf_bytes::{Cause, Section, TableKind, text_at};
use dwarf_entries::TextOffset;
use dwarf_ranges::{Table, item_at};
use dwarf_units::AttributeValue;
use dwarf_walk::Sections;
use std::alloc::Global;

/// The names of an entry.
#[derive(Clone, Copy)]
pub(crate) struct Names {
    pub(crate) name: Option<TextOffset>,
    pub(crate) linkage_name: Option<TextOffset>,
}

/// Returns the string at an offset of a section. Fails if no NUL follows.
fn text_in(name: Section, section: &[u8], offset: u64) -> Result<TextOffset, Cause>
    ensures { result ≡ text_in name section.now offset }
{
    text_at(section, offset)?;
    Ok(TextOffset {
        section: name,
        offset: offset as usize,
    })
}

/// Returns the string that a value refers to. `str_offsets` is the string offsets table of the
/// unit that contains the value.
fn text_of(
    sections: &Sections<'_>,
    str_offsets: Option<Table>,
    value: AttributeValue,
) -> Result<TextOffset, Cause>
    ensures { result ≡ text_of (sections_of sections.now) str_offsets value }
{
    let number = value.number;
    match value.form {
        DW_FORM_STRING => text_in(Section::DebugInfo, sections.debug_info, number),
        DW_FORM_STRP => text_in(Section::DebugStr, sections.debug_str, number),
        DW_FORM_LINE_STRP => text_in(Section::DebugLineStr, sections.debug_line_str, number),
        _ => {
            let table = sections.debug_str_offsets;
            let offset = item_at(TableKind::StrOffsets, table, str_offsets, number)?;
            text_in(Section::DebugStr, sections.debug_str, offset)
        }
    }
}

/// Returns the string of the first attribute with a name on an origin chain.
fn name_on(
    name: u64,
    sections: &Sections<'_>,
    path: &[Member<'_>],
) -> Result<Option<TextOffset>, Cause>
    ensures { result ≡ name_on name (sections_of sections.now) path.now }
{
    for member in path {
        if let Some(value) = member.die().attribute(name) {
            let str_offsets = member.unit().bases().str_offsets;
            return Ok(Some(text_of(sections, str_offsets, value)?));
        }
    }
    Ok(None)
}

/// Returns the names of an entry. Each name is the first one on the origin chain of the entry.
pub(crate) fn names_of<'a>(
    alloc: Global,
    sections: &Sections<'_>,
    units: &'a [CompilationUnit<'a>],
    member: Member<'a>,
) -> Result<Names, Cause>
    ensures { GivesNames (sections_of sections.now) units.now member.entry result }
{
    let path = chain(alloc, units, member)?;
    let name = name_on(DW_AT_NAME, sections, &path)?;
    let linkage_name = name_on(DW_AT_LINKAGE_NAME, sections, &path)?;
    Ok(Names { name, linkage_name })
}

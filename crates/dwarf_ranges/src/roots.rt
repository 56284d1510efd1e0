//! The bases that the root of a unit defines for the whole unit (DWARF 5, 3.1.1).

ghost use Rattle.std.specs.Prelude.{◌≡◌};
ghost use Rattle.dwarf_ranges.specs.Bases.{optional, table_of, address_of, bases_by};
ghost use Rattle.dwarf_walk.specs.Sections.{sections_of};

use crate::bases::{Bases, Table, address_of};
use dwarf_bytes::{Cause, Format, TableHead, TableKind};
use dwarf_units::AttributeValue;
use dwarf_walk::{RootEntry, Sections};

/// Reads the bases that the root of a unit defines. The attributes are validated in the order of
/// the fields of `Bases`.
pub fn root_bases(sections: &Sections<'_>, format: Format, root: &RootEntry) -> Result<Bases, Cause>
    ensures { result ≡ bases_by (sections_of sections.now) format root.now.str_offsets_base
        root.now.addr_base root.now.rnglists_base root.now.low_pc }
{
    let str_offsets = table(
        TableKind::StrOffsets,
        format,
        sections.debug_str_offsets,
        root.str_offsets_base,
    )?;
    let addr = table(TableKind::Addr, format, sections.debug_addr, root.addr_base)?;
    let rnglists = table(
        TableKind::RngLists,
        format,
        sections.debug_rnglists,
        root.rnglists_base,
    )?;
    let low_pc = low_pc(sections, addr, root.low_pc)?;
    Ok(Bases {
        str_offsets,
        addr,
        rnglists,
        low_pc,
    })
}

/// Reads the header of the table at the base that an attribute contains.
fn table(
    kind: TableKind,
    format: Format,
    section: &[u8],
    value: Option<AttributeValue>,
) -> Result<Option<Table>, Cause>
    ensures { result ≡ optional (table_of kind format section.now) value }
{
    match value {
        None => Ok(None),
        Some(value) => {
            let base = value.number;
            let head = TableHead::before(section, base, kind, format)?;
            Ok(Some(Table { base, head, format }))
        }
    }
}

/// Returns the address of a low_pc.
fn low_pc(
    sections: &Sections<'_>,
    addr: Option<Table>,
    value: Option<AttributeValue>,
) -> Result<Option<u64>, Cause>
    ensures { result ≡ optional (address_of (sections_of sections.now) addr) value }
{
    match value {
        None => Ok(None),
        Some(value) => Ok(Some(address_of(sections, addr, value)?)),
    }
}

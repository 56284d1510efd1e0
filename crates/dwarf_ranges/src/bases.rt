//! The bases that the root of a unit defines for the whole unit (DWARF 5, 3.1.1), and lookups in
//! its tables (7.26 to 7.28).

ghost use Rattle.std.specs.Prelude.{◌≡◌, ◌+◌, ◌*◌};
ghost use Rattle.dwarf_bytes.specs.Position.{Reads};
ghost use Rattle.dwarf_ranges.specs.Bases.{item_len, item_in, item_at, address_of};
ghost use Rattle.dwarf_walk.specs.Sections.{sections_of};

use dwarf_bytes::constants::DW_FORM_ADDR;
use dwarf_bytes::{Cause, Cursor, Format, ReadFault, TableHead, TableKind};
use dwarf_units::AttributeValue;
use dwarf_walk::Sections;

/// A table of a unit: its base, its header, and the format of the unit.
#[derive(Clone, Copy)]
pub struct Table {
    pub(crate) base: u64,
    pub(crate) head: TableHead,
    pub(crate) format: Format,
}

/// The tables and the low_pc of a unit. Each is `None` if the root lacks the attribute.
#[derive(Clone, Copy)]
pub struct Bases {
    pub str_offsets: Option<Table>,
    pub addr: Option<Table>,
    pub rnglists: Option<Table>,
    pub low_pc: Option<u64>,
}

/// Returns the size in bytes of an item of a table.
fn item_len(kind: TableKind, format: Format) -> u64
    ensures { result ≡ item_len kind format }
{
    match kind {
        TableKind::StrOffsets | TableKind::RngLists => format.offset_len(),
        TableKind::Addr => 8,
    }
}

/// Reads the item of a table at the cursor.
fn item(kind: TableKind, format: Format, cursor: &mut Cursor) -> Result<u64, ReadFault>
    ensures { Reads (λ x. x) result (item_in kind format) cursor.old cursor.new }
{
    match kind {
        TableKind::StrOffsets | TableKind::RngLists => cursor.offset(format),
        TableKind::Addr => cursor.u64(),
    }
}

/// Returns the item at an index of a table. The index counts from the base of the table. Fails if
/// the unit has no such table, if the index is out of range, or if the item is truncated.
pub fn item_at(
    kind: TableKind,
    section: &[u8],
    table: Option<Table>,
    index: u64,
) -> Result<u64, Cause>
    ensures { result ≡ item_at kind section.now table index }
{
    let table = table.ok_or(Cause::Base)?;
    if index >= table.head.items {
        return Err(Cause::Index);
    }
    let place = u128::from(table.base)
        + u128::from(item_len(kind, table.format)) * u128::from(index);
    if place > section.len() as u128 {
        return Err(Cause::Short);
    }
    let mut cursor = Cursor::new(section);
    cursor.seek(place as usize)?;
    Ok(item(kind, table.format, &mut cursor)?)
}

/// Resolves a value of class address. A value of form addr is the address. All other forms are
/// indexes into `.debug_addr`.
pub(crate) fn address_of(
    sections: &Sections<'_>,
    addr: Option<Table>,
    value: AttributeValue,
) -> Result<u64, Cause>
    ensures { result ≡ address_of (sections_of sections.now) addr value }
{
    if value.form == DW_FORM_ADDR {
        return Ok(value.number);
    }
    item_at(TableKind::Addr, sections.debug_addr, addr, value.number)
}

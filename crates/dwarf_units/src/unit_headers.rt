//! Unit headers (DWARF 5, 7.5.1).

ghost use Rattle.std.specs.Prelude.{◌≡◌, ◌≤◌, ◌+◌, [], length, nat_lt};
ghost use Rattle.dwarf_bytes.specs.Refusals.{Decodes, in_section};
ghost use Rattle.dwarf_units.specs.Units.{unit_type_of, is_read_type, is_read, header_in, unit_at};
ghost use Rattle.dwarf_units.specs.Units.{headers_of, units_of};
ghost use Rattle.dwarf_bytes.specs.declared.fault.Section.TheVariants as sections;

use dwarf_bytes::constants::{DW_UT_COMPILE, DW_UT_PARTIAL, DW_UT_TYPE};
use dwarf_bytes::{Cause, Cursor, Format, LoadFault, Section};
use std::alloc::Global;

/// The type of a unit (DWARF 5, 7.5.1, table 7.2).
#[derive(Clone, Copy)]
pub enum UnitType {
    Compile,
    Type,
    Partial,
}

impl UnitType {
    /// Returns the unit type of a number, or `None` if it is not supported.
    fn of(number: u8) -> Option<UnitType>
        ensures { result ≡ unit_type_of number }
    {
        match number {
            DW_UT_COMPILE => Some(UnitType::Compile),
            DW_UT_TYPE => Some(UnitType::Type),
            DW_UT_PARTIAL => Some(UnitType::Partial),
            _ => None,
        }
    }

    /// Returns whether units of this type are read. Type units are skipped.
    fn is_read(self) -> bool
        ensures { result ≡ is_read_type self }
    {
        match self {
            UnitType::Compile | UnitType::Partial => true,
            UnitType::Type => false,
        }
    }
}

/// A unit header. `start`, `first` and `end` are offsets in `.debug_info`: the unit's first byte,
/// its first entry, and its end (exclusive). `abbreviations` is an offset in `.debug_abbrev`. Of a
/// type unit, nothing after the unit type is read.
#[derive(Clone, Copy)]
pub struct UnitHeader {
    pub start: usize,
    pub format: Format,
    pub unit_type: UnitType,
    pub abbreviations: u64,
    pub first: usize,
    pub end: usize,
}

/// Parses the headers of the units of `.debug_info`, in file order, without type units. A fault is
/// reported at the offset of its unit.
#[tactic(auto, unfolding(crate::specs::Units::units_of))]
pub fn units(alloc: Global, info: &[u8]) -> Result<Vec<UnitHeader>, LoadFault>
    ensures { Decodes (λ units. units.items) result (in_section sections.DebugInfo
        (units_of info.now)) }
{
    let mut all = headers(alloc, info)?;
    all.retain(|header| header.unit_type.is_read());
    Ok(all)
}

/// Parses the headers of all units, type units included.
#[tactic(auto, using(crate::proofs::UnitLaws::unit_moves))]
fn headers(alloc: Global, info: &[u8]) -> Result<Vec<UnitHeader>, LoadFault>
    ensures { Decodes (λ headers. headers.items) result (in_section sections.DebugInfo
        (headers_of info.now)) }
{
    let mut all = Vec::new(alloc);
    let mut at = 0;
    while at < info.len() {
        match unit(info, at) {
            Err(cause) => return Err(LoadFault::at_item(Section::DebugInfo, cause, at as u64)),
            Ok(header) => {
                at = header.end;
                all.push(header)?;
            }
        }
    }
    Ok(all)
}

/// Parses the header of the unit at an offset of `.debug_info`.
#[tactic(auto, unfolding(crate::specs::Units::unit_at))]
fn unit(info: &[u8], at: usize) -> Result<UnitHeader, Cause>
    requires { at ≤ length info.now }
    ensures { result ≡ unit_at info.now at }
{
    let mut cursor = Cursor::new(info);
    cursor.seek(at)?;
    let (format, len) = cursor.initial_length()?;
    if is_past(info.len(), cursor.place(), len) {
        return Err(Cause::Short);
    }
    let end = cursor.place() + len as usize;
    header(at, format, &info[..end], cursor.place())
}

/// Returns whether `len` bytes from `place` on extend beyond `end`.
fn is_past(end: usize, place: usize, len: u64) -> bool
    requires { place ≤ end }
    ensures { result ≡ nat_lt end (place + len) }
{
    len > (end - place) as u64
}

/// Parses the header that follows the length of a unit. `unit` ends where the unit ends.
fn header(start: usize, format: Format, unit: &[u8], at: usize) -> Result<UnitHeader, Cause>
    requires { at ≤ length unit.now }
    ensures { result ≡ header_in start format unit.now at }
{
    let mut cursor = Cursor::new(unit);
    cursor.seek(at)?;
    if cursor.u16()? != 5 {
        return Err(Cause::Version);
    }
    let unit_type = UnitType::of(cursor.u8()?).ok_or(Cause::UnitType)?;
    if !unit_type.is_read() {
        return Ok(UnitHeader {
            start,
            format,
            unit_type,
            abbreviations: 0,
            first: unit.len(),
            end: unit.len(),
        });
    }
    if cursor.u8()? != 8 {
        return Err(Cause::AddressSize);
    }
    let abbreviations = cursor.offset(format)?;
    Ok(UnitHeader {
        start,
        format,
        unit_type,
        abbreviations,
        first: cursor.place(),
        end: unit.len(),
    })
}

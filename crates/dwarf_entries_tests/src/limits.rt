//! Limits of the reader, and large objects.

use crate::fixtures::*;
use dwarf_bytes::{Cause, LoadFault, Section};
use std::process::Abort;
use std::test::*;

/// Returns the ULEB128 of a number below 2^21, encoded in three bytes.
pub fn three_bytes(number: u32) -> [u8; 3] {
    [
        (number % 128) as u8 | 0x80,
        (number / 128 % 128) as u8 | 0x80,
        (number / 16_384 % 128) as u8,
    ]
}

/// Builds two tables: an empty table at offset 0, and at offset 1 a table of `count` subprograms
/// without attributes and children, whose codes count up from 1.
fn subprograms(rt: &(impl Abort + AllocGlobal), count: u32) -> Vec<u8> {
    let mut table = Vec::new(rt.alloc());
    put(rt, &mut table, &[0]);
    for code in 1..=count {
        put(rt, &mut table, &three_bytes(code));
        put(rt, &mut table, &[0x2e, 0, 0, 0]);
    }
    put(rt, &mut table, &[0]);
    table
}

/// Builds `count` units of 13 bytes with these abbreviations, each with one entry of this code.
fn units(rt: &(impl Abort + AllocGlobal), count: usize, abbreviations: u8, code: u8) -> Vec<u8> {
    let mut info = Vec::new(rt.alloc());
    for _ in 0..count {
        add_unit(rt, &mut info, 1, abbreviations, &[code]);
    }
    info
}

/// Counts a table of 65,536 (2^16) declarations for each unit: 64 units use up the limit of 2^22.
#[test]
fn declarations_of_an_object(rt: HostRuntime) {
    let table = subprograms(&rt, 65_536);
    let info = units(&rt, 64, 1, 1);
    let read = scopes_of(&rt, &sections(&info, &table));
    are_equal(&rt, read.scopes().len(), 64);
    let info = units(&rt, 65, 1, 1);
    has_fault(&rt, &sections(&info, &table), Some(too_many(1)));
}

/// Returns the fault of a table at this offset whose declarations exceed the limit.
fn too_many(at: usize) -> LoadFault {
    LoadFault {
        section: Section::DebugAbbrev,
        cause: Cause::TooMany,
        at: at as u64,
    }
}

/// Builds the declarations of a unit without attributes, and of a subprogram with `count` unused
/// attributes as flag_present. Their codes count up from 0x2000.
fn flags(rt: &(impl Abort + AllocGlobal), count: u32) -> Vec<u8> {
    let mut declared = Vec::new(rt.alloc());
    for number in 0..count {
        put(
            rt,
            &mut declared,
            &three_bytes(number.saturating_add(0x2000)),
        );
        put(rt, &mut declared, &[0x19]);
    }
    declarations(rt, (&[], &[]), (&declared, &[]))
}

/// Reads 100,000 subprograms of one byte each, with 100,000 attributes each. A reader that takes a
/// step for each attribute of each entry would not finish.
#[test]
fn entries_of_many_flags(rt: HostRuntime) {
    let table = flags(&rt, 100_000);
    let mut entries = Vec::new(rt.alloc());
    put(&rt, &mut entries, &[1]);
    put_copies(&rt, &mut entries, 2, 100_000);
    put(&rt, &mut entries, &[0]);
    let info = unit(&rt, &entries);
    let read = scopes_of(&rt, &sections(&info, &table));
    are_equal(&rt, read.roots(), [root(12, 0, 100_000)].as_slice());
    are_equal(&rt, read.scopes().len(), 100_000);
    for (number, scope) in read.scopes().iter().enumerate() {
        are_equal(&rt, Some(scope.offset()), number.checked_add(13));
    }
}

/// Checks that `count` units are read, each with a header of 12 bytes and one entry. The roots are
/// the only scopes.
fn are_units(
    rt: &(impl Abort + AllocGlobal),
    info: &[u8],
    table: &[u8],
    count: usize,
    entry_len: usize,
) {
    let read = scopes_of(rt, &sections(info, table));
    are_equal(rt, read.scopes().len(), count);
    are_equal(rt, read.roots().len(), count);
    let unit_len = entry_len.saturating_add(12);
    for (number, unit) in read.roots().iter().enumerate() {
        let offset = number.saturating_mul(unit_len).saturating_add(12);
        are_equal(rt, *unit, root(offset, number, number.saturating_add(1)));
    }
}

#[test]
fn units_of_one_table(rt: HostRuntime) {
    let table = subprograms(&rt, 1_000);
    let info = units(&rt, 4_000, 1, 1);
    are_units(&rt, &info, &table, 4_000, 1);
}

/// The table is parsed once, not once for each unit.
#[test]
fn units_of_one_long_declaration(rt: HostRuntime) {
    let table = flags(&rt, 100_000);
    let info = units(&rt, 20_000, 0, 2);
    are_units(&rt, &info, &table, 20_000, 1);
}

/// Appends a unit with these entries, which have at most 247 bytes. Its abbreviations may be at
/// any offset.
pub fn add_unit_at(rt: &impl Abort, info: &mut Vec<u8>, abbreviations: usize, entry: &[u8]) {
    let abbreviations = u32::try_from(abbreviations).unwrap_or(0);
    let unit_length = u8::try_from(entry.len()).unwrap_or(0).saturating_add(8);
    // unit_length, version, unit_type, address_size
    put(rt, info, &[unit_length, 0, 0, 0, 5, 0, 1, 8]);
    put(rt, info, &abbreviations.to_le_bytes());
    put(rt, info, entry);
}

/// Builds `count` units with one entry of this code, whose abbreviations alternate between two
/// offsets.
fn units_in_turn(
    rt: &(impl Abort + AllocGlobal),
    count: usize,
    places: (usize, usize),
    code: u8,
) -> Vec<u8> {
    let mut info = Vec::new(rt.alloc());
    for number in 0..count {
        let place = if number % 2 == 0 { places.0 } else { places.1 };
        add_unit_at(rt, &mut info, place, &[code]);
    }
    info
}

/// Each of the two tables is parsed once, not once for each unit.
#[test]
fn units_of_two_long_tables(rt: HostRuntime) {
    let mut tables = flags(&rt, 100_000);
    let other = tables.len();
    put(&rt, &mut tables, &flags(&rt, 100_000));
    let info = units_in_turn(&rt, 2_000, (0, other), 2);
    are_units(&rt, &info, &tables, 2_000, 1);
}

/// The declarations of both tables count for each unit: 64 units of 65,536 declarations use up the
/// limit of 2^22.
#[test]
fn declarations_of_two_tables(rt: HostRuntime) {
    let mut tables = subprograms(&rt, 65_536);
    let other = tables.len().saturating_add(1);
    put(&rt, &mut tables, &subprograms(&rt, 65_536));
    let info = units_in_turn(&rt, 65, (other, 1), 1);
    has_fault(&rt, &sections(&info, &tables), Some(too_many(other)));
}

/// The table of each unit starts at a different one of 1,000 declarations. Not all of the tables
/// fit into the cache.
#[test]
fn units_of_overlapping_tables(rt: HostRuntime) {
    let table = subprograms(&rt, 1_000);
    let mut info = Vec::new(rt.alloc());
    for number in 0..1_000u32 {
        let place = (number as usize).saturating_mul(7).saturating_add(1);
        let entry = three_bytes(number.saturating_add(1));
        add_unit_at(&rt, &mut info, place, &entry);
    }
    are_units(&rt, &info, &table, 1_000, 3);
}

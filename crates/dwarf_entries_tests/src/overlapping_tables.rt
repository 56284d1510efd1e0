//! References between units whose tables overlap, so that not all tables fit into the cache.

use crate::fixtures::*;
use crate::limits::{add_unit_at, three_bytes};
use dwarf_bytes::Section;
use dwarf_entries::TextOffset;
use std::process::Abort;
use std::test::*;

/// Builds a table at offset 1 with the declarations of 1,000 subprograms, of seven bytes each,
/// whose codes count up from 1. They are followed by the declarations of a unit with children, of
/// a subprogram with a specification as ref_addr, and of a subprogram with a name as string.
fn declared(rt: &(impl Abort + AllocGlobal)) -> Vec<u8> {
    let mut table = Vec::new(rt.alloc());
    put(rt, &mut table, &[0]);
    for code in 1..1_001 {
        put(rt, &mut table, &three_bytes(code));
        put(rt, &mut table, &[0x2e, 0, 0, 0]);
    }
    put(rt, &mut table, &three_bytes(1_001));
    put(rt, &mut table, &[0x11, 1, 0, 0]);
    put(rt, &mut table, &three_bytes(1_002));
    put(rt, &mut table, &[0x2e, 0, 0x47, 0x10, 0, 0]);
    put(rt, &mut table, &three_bytes(1_003));
    put(rt, &mut table, &[0x2e, 0, 0x03, 0x08, 0, 0, 0]);
    table
}

/// Appends a subprogram that refers to an offset of the section below 2^16.
fn add_reference(rt: &impl Abort, entries: &mut Vec<u8>, place: usize) {
    put(rt, entries, &three_bytes(1_002));
    let low = (place % 256) as u8;
    let high = (place / 256 % 256) as u8;
    put(rt, entries, &[low, high, 0, 0]);
}

/// Builds `count` pairs of units, of 30 and 26 bytes. In the first unit, the subprogram at offset
/// 15 of the pair refers to offset 50, and the subprogram at 22 refers to 45. The subprograms at
/// 45 and 50 are in the second unit, with their names `y` and `z` at 48 and 53. The table of each
/// unit starts one declaration after the table of the unit before it.
fn pairs(rt: &(impl Abort + AllocGlobal), count: usize) -> Vec<u8> {
    let mut info = Vec::new(rt.alloc());
    for number in 0..count {
        let from = info.len();
        let table = number.saturating_mul(14).saturating_add(1);
        add_unit_at(rt, &mut info, table, &referring(rt, from));
        add_unit_at(rt, &mut info, table.saturating_add(7), &named(rt));
    }
    info
}

/// Builds the entries of the first unit of a pair that starts at this offset.
fn referring(rt: &(impl Abort + AllocGlobal), from: usize) -> Vec<u8> {
    let mut entries = Vec::new(rt.alloc());
    put(rt, &mut entries, &three_bytes(1_001));
    add_reference(rt, &mut entries, from.saturating_add(50));
    add_reference(rt, &mut entries, from.saturating_add(45));
    put(rt, &mut entries, &[0]);
    entries
}

/// Builds the entries of the second unit of a pair.
fn named(rt: &(impl Abort + AllocGlobal)) -> Vec<u8> {
    let mut entries = Vec::new(rt.alloc());
    put(rt, &mut entries, &three_bytes(1_001));
    put(rt, &mut entries, &three_bytes(1_003));
    put(rt, &mut entries, &[0x79, 0]);
    put(rt, &mut entries, &three_bytes(1_003));
    put(rt, &mut entries, &[0x7a, 0, 0]);
    entries
}

/// Returns the expected name of the scope of this number.
fn name_of(number: usize) -> Option<TextOffset> {
    let from = (number / 4).saturating_mul(56);
    let name = match number % 4 {
        0 | 3 => 53,
        _ => 48,
    };
    text(Section::DebugInfo, from.saturating_add(name))
}

/// After 14 tables of 1,000 declarations the cache is full.
#[test]
fn references_between_overlapping_tables(rt: HostRuntime) {
    let table = declared(&rt);
    let info = pairs(&rt, 60);
    are_equal(&rt, info.len(), 3_360);
    let read = scopes_of(&rt, &sections(&info, &table));
    are_equal(&rt, read.scopes().len(), 240);
    for (number, scope) in read.scopes().iter().enumerate() {
        are_equal(&rt, scope.name(), name_of(number));
    }
}

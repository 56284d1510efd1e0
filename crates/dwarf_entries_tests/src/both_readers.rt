//! The reader of scopes and the reference implementation return the same roots, scopes and faults.

use crate::fixtures::*;
use dwarf_entries::{Scope, Scopes, Sections};
use dwarf_samples::{
    call_file_outside, circular_origins, cut_abbreviations, format_of_64_bits, inlined,
    leaf_without_code, origin_of_no_entry, two_sequences, version_four,
};
use plain_scopes::{PlainScope, PlainScopes};
use std::process::Abort;
use std::test::*;

/// The offset of a byte that is changed, and its new value.
type Change = (usize, u8);

/// Checks that both readers return the same data of a scope.
fn is_same(rt: &impl Abort, change: Change, read: &Scopes, scope: &Scope, plain: &PlainScope) {
    let place = (
        change,
        scope.kind(),
        scope.offset(),
        scope.number(),
        scope.end(),
    );
    let wanted = (change, plain.kind, plain.offset, plain.number, plain.end);
    are_equal(rt, place, wanted);
    are_equal(
        rt,
        (change, scope.ranges(read)),
        (change, plain.ranges.as_slice()),
    );
    let names = (change, scope.name(), scope.linkage_name());
    are_equal(rt, names, (change, plain.name, plain.linkage_name));
    let lines = (change, scope.stmt_list(read), call_of(read, scope));
    are_equal(
        rt,
        lines,
        (change, plain.stmt_list, (plain.call_file, plain.call_line)),
    );
}

/// Checks that both readers return the same roots and scopes.
fn are_same(rt: &impl Abort, change: Change, read: &Scopes, plain: &PlainScopes) {
    are_equal(rt, (change, read.roots()), (change, plain.roots.as_slice()));
    are_equal(
        rt,
        (change, read.scopes().len()),
        (change, plain.scopes.len()),
    );
    for (scope, plain) in read.scopes().iter().zip(plain.scopes.iter()) {
        is_same(rt, change, read, scope, plain);
    }
}

/// Checks that both readers return the same roots and scopes, or the same fault.
fn agree(rt: &(impl Abort + AllocGlobal), change: Change, sections: &Sections<'_>) {
    let read = Scopes::read(rt.alloc(), sections);
    let plain = PlainScopes::read(rt.alloc(), sections);
    match (read, plain) {
        (Ok(read), Ok(plain)) => are_same(rt, change, &read, &plain),
        (read, plain) => are_equal(rt, (change, read.err()), (change, plain.err())),
    }
}

/// Checks that both readers return the same for a sample object.
fn agree_on(rt: &(impl Abort + AllocGlobal), object: &[u8]) {
    agree(rt, (0, 0), &sections_of(rt, object));
}

#[test]
fn samples(rt: HostRuntime) {
    agree_on(&rt, &inlined());
    agree_on(&rt, &two_sequences());
    agree_on(&rt, &format_of_64_bits());
    agree_on(&rt, &leaf_without_code());
    agree_on(&rt, &call_file_outside());
}

#[test]
fn refused_samples(rt: HostRuntime) {
    agree_on(&rt, &cut_abbreviations());
    agree_on(&rt, &circular_origins());
    agree_on(&rt, &version_four());
    agree_on(&rt, &origin_of_no_entry());
}

/// Returns the `.debug_abbrev` of two units, which use all tables of indexes, both kinds of
/// references, and range lists.
fn abbreviations() -> [u8; 68] {
    [
        // unit: stmt_list, str_offsets_base, addr_base, rnglists_base, low_pc
        1, 0x11, 1, 0x10, 0x17, 0x72, 0x17, 0x73, 0x17, 0x74, 0x17, 0x11, 0x29, 0, 0,
        // subprogram with children: name, linkage_name, low_pc, high_pc
        2, 0x2e, 1, 0x03, 0x25, 0x6e, 0x0e, 0x11, 0x01, 0x12, 0x0b, 0, 0,
        // inlined subroutine: abstract_origin, ranges, call_file, and call_line in the declaration
        3, 0x1d, 0, 0x31, 0x13, 0x55, 0x23, 0x58, 0x0b, 0x59, 0x21, 7, 0, 0,
        // subprogram: specification, name, ranges
        4, 0x2e, 0, 0x47, 0x10, 0x03, 0x1f, 0x55, 0x17, 0, 0,
        // lexical block with children: decl_line in an indirect form
        5, 0x0b, 1, 0x3b, 0x16, 0, 0,
        // subprogram: abstract_origin
        6, 0x2e, 0, 0x31, 0x10, 0, 0,
        // end of the table
        0,
    ]
}

/// Returns the `.debug_info` of the two units.
fn units() -> [u8; 88] {
    [
        // header of a compilation unit
        59, 0, 0, 0, 5, 0, 1, 8, 0, 0, 0, 0,
        // 12: unit, with bases 8, 8 and 12
        1, 0, 0, 0, 0, 8, 0, 0, 0, 8, 0, 0, 0, 12, 0, 0, 0, 0,
        // 30: subprogram, 0x1000 to 0x1020
        2, 0, 3, 0, 0, 0, 0, 0x10, 0, 0, 0, 0, 0, 0, 0x20,
        // 45: lexical block
        5, 0x0b, 9,
        // 48: inlined subroutine of the entry at 30, with the range list of index 0
        3, 30, 0, 0, 0, 0, 1,
        // ends of the lists of children
        0, 0,
        // 57: subprogram whose origin is at 30
        6, 30, 0, 0, 0,
        // end of the list of children
        0,
        // header of a partial unit
        21, 0, 0, 0, 5, 0, 3, 8, 0, 0, 0, 0,
        // 75: subprogram that completes the entry at 57, with the range list at 28
        4, 57, 0, 0, 0, 0, 0, 0, 0, 28, 0, 0, 0,
    ]
}

/// Returns the sections that the two units refer to, one after the other.
fn tables() -> [u8; 86] {
    [
        // .debug_str: `ab` and `c`
        0x61, 0x62, 0, 0x63, 0,
        // .debug_str_offsets: 3 and 0
        12, 0, 0, 0, 5, 0, 0, 0, 3, 0, 0, 0, 0, 0, 0, 0,
        // .debug_line_str: `x`
        0x78, 0,
        // .debug_addr: 0x1000 and 0x2000
        20, 0, 0, 0, 5, 0, 8, 0, 0, 0x10, 0, 0, 0, 0, 0, 0, 0, 0x20, 0, 0, 0, 0, 0, 0,
        // .debug_rnglists: a table of one offset
        35, 0, 0, 0, 5, 0, 8, 0, 1, 0, 0, 0, 4, 0, 0, 0,
        // 16: 0x1001 to 0x1002, 0x2000 to 0x2004, 0x2000 to 0x2010
        4, 1, 2, 1, 1, 4, 0, 4, 3, 1, 0x10, 0,
        // 28: 0x4000 to 0x4005
        7, 0, 0x40, 0, 0, 0, 0, 0, 0, 5, 0,
    ]
}

/// Returns the sections of the two units.
fn sections_in<'a>(
    abbreviations: &'a [u8; 68],
    units: &'a [u8; 88],
    tables: &'a [u8; 86],
) -> Sections<'a> {
    Sections {
        debug_abbrev: abbreviations,
        debug_info: units,
        debug_line: &[],
        debug_str: &tables[..5],
        debug_str_offsets: &tables[5..21],
        debug_line_str: &tables[21..23],
        debug_addr: &tables[23..47],
        debug_rnglists: &tables[47..],
    }
}

#[test]
fn two_units(rt: HostRuntime) {
    let (abbreviations, units, tables) = (abbreviations(), units(), tables());
    let all = sections_in(&abbreviations, &units, &tables);
    let read = scopes_of(&rt, &all);
    let counts = (read.roots().len(), read.scopes().len());
    are_equal(&rt, counts, (2, 4));
    agree(&rt, (0, 0), &all);
}

/// Returns values that a byte is changed to.
fn changes_of(byte: u8) -> [u8; 6] {
    let (next, previous) = (byte.wrapping_add(1), byte.wrapping_sub(1));
    [0, 1, next, previous, byte ^ 0x80, 0xff]
}

/// Each byte of the abbreviation table, changed to several other values.
#[test]
fn changed_abbreviations(rt: HostRuntime) {
    let (whole, units, tables) = (abbreviations(), units(), tables());
    for place in 0..whole.len() {
        for new in changes_of(whole[place]) {
            let mut bytes = abbreviations();
            bytes[place] = new;
            agree(&rt, (place, new), &sections_in(&bytes, &units, &tables));
        }
    }
}

/// Each byte of the units, changed to several other values.
#[test]
fn changed_units(rt: HostRuntime) {
    let (abbreviations, whole, tables) = (abbreviations(), units(), tables());
    for place in 0..whole.len() {
        for new in changes_of(whole[place]) {
            let mut bytes = units();
            bytes[place] = new;
            agree(
                &rt,
                (place, new),
                &sections_in(&abbreviations, &bytes, &tables),
            );
        }
    }
}

/// Each byte of the sections that the units refer to, changed to several other values.
#[test]
fn changed_tables(rt: HostRuntime) {
    let (abbreviations, units, whole) = (abbreviations(), units(), tables());
    for place in 0..whole.len() {
        for new in changes_of(whole[place]) {
            let mut bytes = tables();
            bytes[place] = new;
            agree(
                &rt,
                (place, new),
                &sections_in(&abbreviations, &units, &bytes),
            );
        }
    }
}

/// The same for `.debug_abbrev` and `.debug_info` of the sample in the 64-bit format.
#[test]
fn changed_bytes_of_a_sample(rt: HostRuntime) {
    let abbreviations_start = 120;
    let units_end = 275;
    let whole = format_of_64_bits();
    for place in abbreviations_start..units_end {
        for new in changes_of(whole[place]) {
            let mut bytes = format_of_64_bits();
            bytes[place] = new;
            agree(&rt, (place, new), &sections_of(&rt, &bytes));
        }
    }
}

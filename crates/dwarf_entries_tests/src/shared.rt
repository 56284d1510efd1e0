//! Data that scopes share: a list of ranges, a list of wide call sites, and the roots of their
//! units.

use crate::fixtures::*;
use dwarf_entries::{Range, Scopes, Sections};
use std::process::Abort;
use std::test::*;

/// A list of three ranges, each with a length.
const LIST: [u8; 31] = [
    7, 0, 0x30, 0, 0, 0, 0, 0, 0, 5, // start_length 0x3000, 5
    7, 0, 0x40, 0, 0, 0, 0, 0, 0, 6, // start_length 0x4000, 6
    7, 0, 0x50, 0, 0, 0, 0, 0, 0, 7, // start_length 0x5000, 7
    0, // end_of_list
];

/// A unit, and subprograms without a range, with low_pc and high_pc, and with a range list.
const COVERING: [u8; 26] = [
    1, 0x11, 1, 0, 0, // unit
    2, 0x2e, 0, 0, 0, // subprogram
    3, 0x2e, 0, 0x11, 0x01, 0x12, 0x0b, 0, 0, // .. of low_pc as addr, high_pc as data1
    4, 0x2e, 0, 0x55, 0x17, 0, 0, // .. of ranges as sec_offset
];

/// A unit, and subprograms with a call file and a call line, with neither, with a file only, and
/// with a line only.
const CALLED: [u8; 33] = [
    1, 0x11, 1, 0, 0, // unit
    2, 0x2e, 0, 0x58, 0x07, 0x59, 0x07, 0, 0, // call_file and call_line as data8
    3, 0x2e, 0, 0, 0, // neither
    4, 0x2e, 0, 0x58, 0x07, 0, 0, // call_file
    5, 0x2e, 0, 0x59, 0x07, 0, 0, // call_line
];

/// Units with and without a line program, and a subprogram.
const UNITS: [u8; 17] = [
    1, 0x11, 1, 0x10, 0x17, 0, 0, // stmt_list as sec_offset
    2, 0x11, 1, 0, 0, // none
    3, 0x2e, 0, 0, 0, // subprogram
];

/// Builds a table of these declarations.
fn table(rt: &(impl Abort + AllocGlobal), declarations: &[u8]) -> Vec<u8> {
    let mut bytes = Vec::new(rt.alloc());
    put(rt, &mut bytes, declarations);
    put(rt, &mut bytes, &[0]);
    bytes
}

/// Checks the ranges of each scope.
fn cover(rt: &impl Abort, read: &Scopes, ranges: &[&[Range]]) {
    are_equal(rt, read.scopes().len(), ranges.len());
    for (number, (scope, ranges)) in read.scopes().iter().zip(ranges).enumerate() {
        are_equal(rt, (number, scope.ranges(read)), (number, *ranges));
    }
}

#[test]
fn ranges_of_neighbours(rt: HostRuntime) {
    let table = table(&rt, &COVERING);
    let entries = [
        1, // unit
        2, // no range
        3, 0, 0x10, 0, 0, 0, 0, 0, 0, 8, // 0x1000 to 0x1008
        4, 0, 0, 0, 0, // the list
        2, // no range
        4, 0, 0, 0, 0, // the list again
        3, 0, 0x20, 0, 0, 0, 0, 0, 0, 0, // 0x2000 to 0x2000, which is empty
        3, 0, 0x20, 0, 0, 0, 0, 0, 0, 4, // 0x2000 to 0x2004
        2, // no range
        0,
    ];
    let info = unit(&rt, &entries);
    let all = Sections {
        debug_rnglists: &LIST,
        ..sections(&info, &table)
    };
    let read = scopes_of(&rt, &all);
    let three = [
        range(0x3000, 0x3005),
        range(0x4000, 0x4006),
        range(0x5000, 0x5007),
    ];
    let first = [range(0x1000, 0x1008)];
    let last = [range(0x2000, 0x2004)];
    let wanted: [&[Range]; 8] = [&[], &first, &three, &[], &three, &[], &last, &[]];
    cover(&rt, &read, &wanted);
}

#[test]
fn calls_of_neighbours(rt: HostRuntime) {
    let table = table(&rt, &CALLED);
    let entries = [
        1, // unit
        2, 7, 0, 0, 0, 0, 0, 0, 0, 9, 0, 0, 0, 0, 0, 0, 0, // 7 and 9
        2, 0, 0, 0, 0, 0, 1, 0, 0, 5, 0, 0, 0, 1, 0, 0, 0, // 2^40 and 2^32 + 5
        3, // neither
        2, 3, 0, 0, 0, 0, 0, 0, 0, 4, 0, 0, 0, 1, 0, 0, 0, // 3 and 2^32 + 4
        4, 0xff, 0xff, 0xff, 0xff, 0, 0, 0, 0, // file 2^32 - 1
        4, 0, 0, 0, 0, 1, 0, 0, 0, // file 2^32
        5, 6, 0, 0, 0, 1, 0, 0, 0, // line 2^32 + 6
        5, 8, 0, 0, 0, 0, 0, 0, 0, // line 8
        0,
    ];
    let info = unit(&rt, &entries);
    let read = scopes_of(&rt, &sections(&info, &table));
    let calls = [
        (Some(7), Some(9)),
        (Some(0x100_0000_0000), Some(0x1_0000_0005)),
        (None, None),
        (Some(3), Some(0x1_0000_0004)),
        (Some(0xffff_ffff), None),
        (Some(0x1_0000_0000), None),
        (None, Some(0x1_0000_0006)),
        (None, Some(8)),
    ];
    have_calls(&rt, &read, &calls);
}

#[test]
fn calls_at_the_bound_of_16_bits(rt: HostRuntime) {
    let table = table(&rt, &CALLED);
    let entries = [
        1, // unit
        5, 0xff, 0xff, 0, 0, 0, 0, 0, 0, // line 65,535
        5, 0, 0, 1, 0, 0, 0, 0, 0, // line 65,536
        5, 0, 0, 0, 0, 1, 0, 0, 0, // line 2^32
        4, 0xff, 0xff, 0, 0, 0, 0, 0, 0, // file 65,535
        4, 0, 0, 1, 0, 0, 0, 0, 0, // file 65,536
        2, 0xff, 0xff, 0, 0, 0, 0, 0, 0, 0xff, 0xff, 0, 0, 0, 0, 0, 0, // 65,535 and 65,535
        2, 0xff, 0xff, 0, 0, 0, 0, 0, 0, 0, 0, 1, 0, 0, 0, 0, 0, // 65,535 and 65,536
        2, 0, 0, 1, 0, 0, 0, 0, 0, 0xff, 0xff, 0, 0, 0, 0, 0, 0, // 65,536 and 65,535
        0,
    ];
    let info = unit(&rt, &entries);
    let read = scopes_of(&rt, &sections(&info, &table));
    let calls = [
        (None, Some(65_535)),
        (None, Some(65_536)),
        (None, Some(4_294_967_296)),
        (Some(65_535), None),
        (Some(65_536), None),
        (Some(65_535), Some(65_535)),
        (Some(65_535), Some(65_536)),
        (Some(65_536), Some(65_535)),
    ];
    have_calls(&rt, &read, &calls);
}

/// Checks the call of each scope.
fn have_calls(rt: &impl Abort, read: &Scopes, calls: &[(Option<u64>, Option<u64>)]) {
    are_equal(rt, read.scopes().len(), calls.len());
    for (number, (scope, call)) in read.scopes().iter().zip(calls).enumerate() {
        are_equal(rt, (number, call_of(read, scope)), (number, *call));
    }
}

#[test]
fn line_programs_of_units(rt: HostRuntime) {
    let table = table(&rt, &UNITS);
    let units: [Unit<'_>; 5] = [
        (1, 0, &[1, 0x10, 0, 0, 0, 3, 0]),
        (1, 0, &[]),
        (1, 0, &[2, 3, 3, 0]),
        (1, 0, &[1, 0x20, 0, 0, 0, 0]), // no scopes
        (1, 0, &[1, 0x30, 0, 0, 0, 3, 3, 0]),
    ];
    let info = units_of(&rt, &units);
    let read = scopes_of(&rt, &sections(&info, &table));
    let wanted = [Some(0x10), None, None, Some(0x30), Some(0x30)];
    are_equal(&rt, read.roots().len(), 4);
    have_programs(&rt, &read, &wanted);
}

/// Checks the line program of each scope.
fn have_programs(rt: &impl Abort, read: &Scopes, wanted: &[Option<u64>]) {
    are_equal(rt, read.scopes().len(), wanted.len());
    for (number, (scope, stmt_list)) in read.scopes().iter().zip(wanted).enumerate() {
        are_equal(rt, (number, scope.stmt_list(read)), (number, *stmt_list));
    }
}

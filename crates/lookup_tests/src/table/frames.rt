//! Frames of objects that are built for single tests.

use crate::checks::are_equal;
use crate::table::fixtures::*;
use addr_table::Module;
use dwarf_samples::inlined;
use std::process::Abort;
use std::test::*;

/// A unit, subprograms and inlined subroutines with low_pc, and a high_pc of one byte.
const ABBREV: [u8; 67] = [
    1, 0x11, 1, 0x10, 0x17, 0, 0, // unit: stmt_list
    // subprogram with children: name, low_pc, high_pc
    2, 0x2e, 1, 0x03, 0x08, 0x11, 0x01, 0x12, 0x0b, 0, 0,
    // inlined subroutine without children: name, low_pc, high_pc, call_file, call_line
    3, 0x1d, 0, 0x03, 0x08, 0x11, 0x01, 0x12, 0x0b, 0x58, 0x0b, 0x59, 0x0b, 0, 0,
    // subprogram: name, linkage_name, ranges
    4, 0x2e, 0, 0x03, 0x08, 0x6e, 0x08, 0x55, 0x17, 0, 0,
    // inlined subroutine without a call: name, low_pc, high_pc
    5, 0x1d, 0, 0x03, 0x08, 0x11, 0x01, 0x12, 0x0b, 0, 0,
    // subprogram without children: low_pc, high_pc
    6, 0x2e, 0, 0x11, 0x01, 0x12, 0x0b, 0, 0, 0, 0, 0,
];

/// Appends an entry: its code, its name, its low_pc and its high_pc.
fn put_entry(rt: &impl Abort, entries: &mut Vec<u8>, code: u8, name: u8, low: u64, len: u8) {
    put(rt, entries, &[code, name, 0]);
    put(rt, entries, &low.to_le_bytes());
    put(rt, entries, &[len]);
}

/// Builds an object with one unit of these entries, whose line program is at offset 0.
fn one_unit(
    rt: &(impl Abort + AllocGlobal),
    entries: &[u8],
    line: &[u8],
    rnglists: &[u8],
) -> Vec<u8> {
    let mut all = Vec::new(rt.alloc());
    put(rt, &mut all, &[1, 0, 0, 0, 0]);
    put(rt, &mut all, entries);
    put(rt, &mut all, &[0]);
    let mut info = Vec::new(rt.alloc());
    add_unit(rt, &mut info, &all);
    let parts = Parts {
        abbrev: &ABBREV,
        info: &info,
        line,
        rnglists,
    };
    object(rt, parts)
}

/// Returns the line program of the first sample.
fn line() -> [u8; 75] {
    let mut line = [0; 75];
    line.copy_from_slice(&inlined()[259..334]);
    line
}

/// Returns the linkage name of the first frame of an address.
fn linkage(module: &Module, link: u64) -> Option<&[u8]> {
    let place = find(module, link)?;
    module.frames(place).next()?.linkage()
}

#[test]
fn two_ranges_of_a_scope_that_overlap(rt: HostRuntime) {
    // offset_pair 0 to 8 and 4 to 12, from a base of 0x1000
    let list = [5, 0, 0x10, 0, 0, 0, 0, 0, 0, 4, 0, 8, 4, 4, 12, 0];
    let entries = [4, b'f', 0, b'g', b'h', 0, 0, 0, 0, 0];
    let bytes = one_unit(&rt, &entries, &line(), &list);
    let module = module(&rt, bytes);
    answers(&rt, &module, 0x1009, &[(Some(b"f"), Some(b"/src/a.c"), 11)]);
    answers(&rt, &module, 0x1003, &[(Some(b"f"), Some(b"/src/a.c"), 10)]);
    answers(&rt, &module, 0x100c, &[(None, Some(b"/src/a.c"), 11)]);
    are_equal(&rt, linkage(&module, 0x1009), Some(b"gh".as_slice()));
    for link in 0xffe..0x1012 {
        agrees_with_scan(&rt, &module, link);
    }
}

#[test]
fn the_first_inlined_subroutine_and_not_the_narrowest(rt: HostRuntime) {
    let mut entries = Vec::new(rt.alloc());
    put_entry(&rt, &mut entries, 2, b'm', 0x1000, 16);
    put_entry(&rt, &mut entries, 3, b'w', 0x1000, 12);
    put(&rt, &mut entries, &[0, 7]);
    put_entry(&rt, &mut entries, 3, b'n', 0x1004, 4);
    put(&rt, &mut entries, &[1, 8]);
    put(&rt, &mut entries, &[0]);
    let module = module(&rt, one_unit(&rt, &entries, &line(), &[]));
    // file 0 is the same file as file 1
    let frames: [Expected; 2] = [
        (Some(b"w"), Some(b"/src/a.c"), 11),
        (Some(b"m"), Some(b"/src/a.c"), 7),
    ];
    answers(&rt, &module, 0x1004, &frames);
}

/// Checks the innermost scopes of addresses that no row covers.
fn are_innermost(rt: &impl Abort, module: &Module, expected: &[(u64, Option<usize>)]) {
    for (link, scope) in expected {
        let place = numbers(find(module, *link));
        are_equal(
            rt,
            (*link, place),
            (*link, scope.map(|scope| (None, Some(scope)))),
        );
    }
}

#[test]
fn scopes_that_start_inside_and_after_the_innermost_scope(rt: HostRuntime) {
    let mut entries = Vec::new(rt.alloc());
    // scopes 0 and 1: 0x1024 to 0x1040, and inside it 0x1028 to 0x1030
    put_entry(&rt, &mut entries, 2, b'm', 0x1024, 28);
    put_entry(&rt, &mut entries, 5, b'i', 0x1028, 8);
    put(&rt, &mut entries, &[0]);
    // scopes 2 and 3: 0x1020 to 0x1044, and inside it 0x102c to 0x103c
    put_entry(&rt, &mut entries, 2, b'n', 0x1020, 36);
    put_entry(&rt, &mut entries, 5, b'j', 0x102c, 16);
    put(&rt, &mut entries, &[0]);
    let module = module(&rt, one_unit(&rt, &entries, &line(), &[]));
    let innermost = [
        (0x1020, Some(2)),
        (0x1024, Some(0)),
        (0x1028, Some(1)),
        (0x102c, Some(1)),
        (0x1030, Some(0)),
        (0x103c, Some(0)),
        (0x1040, Some(2)),
        (0x1044, None),
    ];
    are_innermost(&rt, &module, &innermost);
}

#[test]
fn scopes_that_end_after_their_parents(rt: HostRuntime) {
    let mut entries = Vec::new(rt.alloc());
    // scopes 0 and 1: 0x1020 to 0x1030, and 0x1028 to 0x1038
    put_entry(&rt, &mut entries, 2, b'm', 0x1020, 16);
    put_entry(&rt, &mut entries, 5, b'i', 0x1028, 16);
    put(&rt, &mut entries, &[0]);
    // scopes 2, 3 and 4: 0x1040 to 0x1060, and inside it 0x1044 to 0x1050 and 0x1048 to 0x1058
    put_entry(&rt, &mut entries, 2, b'n', 0x1040, 32);
    put_entry(&rt, &mut entries, 5, b'j', 0x1044, 12);
    put_entry(&rt, &mut entries, 5, b'k', 0x1048, 16);
    put(&rt, &mut entries, &[0]);
    let module = module(&rt, one_unit(&rt, &entries, &line(), &[]));
    let innermost = [
        (0x1020, Some(0)),
        (0x1028, Some(1)),
        // no subprogram contains the address
        (0x1030, None),
        (0x1038, None),
        (0x1040, Some(2)),
        (0x1044, Some(3)),
        // the first of two siblings
        (0x1048, Some(3)),
        (0x1050, Some(4)),
        (0x1058, Some(2)),
        (0x1060, None),
    ];
    are_innermost(&rt, &module, &innermost);
}

#[test]
fn a_call_without_file_and_line(rt: HostRuntime) {
    let mut entries = Vec::new(rt.alloc());
    put_entry(&rt, &mut entries, 2, b'm', 0x1020, 16);
    put_entry(&rt, &mut entries, 5, b'i', 0x1020, 8);
    put(&rt, &mut entries, &[0]);
    let module = module(&rt, one_unit(&rt, &entries, &line(), &[]));
    // no row covers the address
    answers(
        &rt,
        &module,
        0x1020,
        &[(Some(b"i"), None, 0), (Some(b"m"), None, 0)],
    );
}

/// Returns the first sample's line program for the file `b.c`.
fn other_line() -> [u8; 75] {
    let mut line = line();
    // the names of files 0 and 1
    line[45] = b'b';
    line[50] = b'b';
    line
}

#[test]
fn a_call_file_is_of_the_unit_s_line_program(rt: HostRuntime) {
    let mut lines = Vec::new(rt.alloc());
    put(&rt, &mut lines, &line());
    put(&rt, &mut lines, &other_line());
    let mut entries = Vec::new(rt.alloc());
    // the second program starts at 75
    put(&rt, &mut entries, &[1, 75, 0, 0, 0]);
    put_entry(&rt, &mut entries, 2, b'm', 0x1000, 16);
    put_entry(&rt, &mut entries, 3, b'i', 0x1004, 4);
    put(&rt, &mut entries, &[1, 9]);
    put(&rt, &mut entries, &[0, 0]);
    let mut info = Vec::new(rt.alloc());
    add_unit(&rt, &mut info, &[1, 0, 0, 0, 0, 0]);
    add_unit(&rt, &mut info, &entries);
    let parts = Parts {
        abbrev: &ABBREV,
        info: &info,
        line: &lines,
        rnglists: &[],
    };
    let module = module(&rt, object(&rt, parts));
    answers(
        &rt,
        &module,
        0x1004,
        &[
            (Some(b"i"), Some(b"/src/a.c"), 11),
            (Some(b"m"), Some(b"/src/b.c"), 9),
        ],
    );
}

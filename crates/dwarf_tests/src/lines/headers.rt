//! Line program headers: their paths, and their first fault.

use crate::checks::{are_equal, put};
use crate::lines::fixtures::*;
use dwarf_bytes::Cause;
use dwarf_lines::LineTables;
use dwarf_samples::{cut_line_program, many_directories_without_a_format};
use std::process::Abort;
use std::test::*;

/// Checks the path of a file of the first program, if all its strings are in `.debug_line`.
fn has_first_path(rt: &(impl Abort + AllocGlobal), line: &[u8], file: u64, wanted: &[u8]) {
    has_path(rt, &read(rt, line), [line, &[], &[]], file, wanted);
}

#[test]
fn each_changed_byte_has_its_cause(rt: HostRuntime) {
    for (place, byte, cause) in [
        (6usize, 0x04u8, Cause::AddressSize),
        (7, 0x01, Cause::SegmentSize),
        (13, 0x02, Cause::LineParams),
        (16, 0x00, Cause::LineParams),
        (18, 0x01, Cause::OpcodeLengths),
        (43, 0x16, Cause::FileFormat),
        (44, 0x01, Cause::FileIndex),
        (54, 0x01, Cause::DirIndex),
        (56, 0x08, Cause::Extended),
        (73, 0x00, Cause::Extended),
        (67, 0x7e, Cause::LineRange),
        (73, 0x02, Cause::Short),
        (74, 0x04, Cause::SequenceOpen),
        (4, 0x04, Cause::Version),
        (3, 0xff, Cause::Short),
        (8, 0x40, Cause::Short),
        (8, 0x06, Cause::Short),
        (17, 0x00, Cause::LineParams),
    ] {
        let mut line = one_sequence();
        if let Some(changed) = line.get_mut(place) {
            *changed = byte;
        }
        let actual = fault_of(&rt, &line);
        are_equal(&rt, (place, actual), (place, Some(fault(cause, 0))));
    }
}

#[test]
fn a_file_without_a_directory_is_in_directory_0(rt: HostRuntime) {
    let mut line = one_sequence();
    line[42] = 5;
    has_first_path(&rt, &line, 0, b"/src/a.c");
    has_first_path(&rt, &line, 1, b"/src/a.c");
}

#[test]
fn a_path_has_up_to_three_parts(rt: HostRuntime) {
    let cases: [([&[u8]; 2], &[u8], &[u8]); 7] = [
        ([b"/src", b"lib"], b"x.c", b"/src/lib/x.c"),
        ([b"/src", b"/inc"], b"x.c", b"/inc/x.c"),
        ([b"/src", b"lib"], b"/y.c", b"/y.c"),
        ([b"", b"lib"], b"x.c", b"lib/x.c"),
        ([b"/src", b""], b"x.c", b"/src/x.c"),
        ([b"/src", b"/inc/"], b"x.c", b"/inc//x.c"),
        ([b"", b""], b"", b""),
    ];
    for (directories, file, wanted) in cases {
        has_first_path(&rt, &with_paths(&rt, directories, file), 0, wanted);
    }
}

#[test]
fn paths_are_in_other_sections(rt: HostRuntime) {
    let line = with_offsets(&rt);
    let sections = [line.as_slice(), b"/src\0", b"??\0x.c\0"];
    has_path(&rt, &read_sections(&rt, sections), sections, 0, b"/src/x.c");
}

#[test]
fn a_path_without_a_nul_is_a_fault(rt: HostRuntime) {
    let line = with_offsets(&rt);
    let read = LineTables::read(rt.alloc(), line.as_slice(), b"/src\0", b"??\0x.c");
    are_equal(&rt, read.err(), Some(fault(Cause::String, 0)));
}

#[test]
fn samples_with_faults(rt: HostRuntime) {
    let no_format = &many_directories_without_a_format()[259..334];
    has_fault(&rt, no_format, Cause::FileFormat, 0);
    has_fault(&rt, &cut_line_program()[259..333], Cause::Short, 0);
}

/// Checks the fault of a program that follows a valid one.
fn second_has_fault(rt: &(impl Abort + AllocGlobal), second: &[u8], cause: Cause) {
    let mut line = copy(rt, &one_sequence());
    put(rt, &mut line, second);
    has_fault(rt, &line, cause, 75);
}

#[test]
fn the_first_invalid_program_is_reported(rt: HostRuntime) {
    let mut bad = one_sequence();
    bad[44] = 1;
    let mut second = copy(&rt, &bad);
    put(&rt, &mut second, &[0xff, 0xff, 0xff, 0xff]);
    second_has_fault(&rt, &second, Cause::FileIndex);
    second_has_fault(&rt, &[0xf0, 0xff, 0xff, 0xff], Cause::Length);
    second_has_fault(&rt, &[0xff, 0xff, 0xff, 0xff], Cause::Short);
}

#[test]
fn a_cut_section_is_short(rt: HostRuntime) {
    let line = one_sequence();
    for len in 1..75 {
        let actual = fault_of(&rt, &line[..len]);
        are_equal(&rt, (len, actual), (len, Some(fault(Cause::Short, 0))));
    }
}

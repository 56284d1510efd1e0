//! Object files: their layout, and their first fault.

use crate::checks::are_equal;
use dwarf_bytes::{Cause, Layout, LoadFault, Object, Section, Span};
use dwarf_samples::{inlined, two_sequences};
use std::process::Abort;
use std::test::*;

/// Returns the first sample object with some bytes changed.
fn changed(edits: &[(usize, u8)]) -> [u8; 703] {
    let mut object = inlined();
    for (place, byte) in edits {
        if *place < object.len() {
            object[*place] = *byte;
        }
    }
    object
}

fn elf(cause: Cause, at: u64) -> Option<LoadFault> {
    Some(LoadFault {
        section: Section::Elf,
        cause,
        at,
    })
}

#[test]
fn finds_the_sections(rt: HostRuntime) {
    let none = span(0, 0);
    let layout = Layout {
        debug_info: span(163, 96),
        debug_abbrev: span(120, 43),
        debug_line: span(259, 75),
        debug_line_str: none,
        debug_str: none,
        debug_str_offsets: none,
        debug_addr: none,
        debug_rnglists: none,
        low: 0x1000,
        high: 0x2000,
    };
    are_equal(&rt, Object::find(&inlined()), Ok(layout));
    are_equal(&rt, layout.debug_line.of(&inlined()).len(), 75);
}

fn span(place: usize, len: usize) -> Span {
    Span { place, len }
}

/// Edits that set the address in the first program header to 2^64-1.
const HIGHEST_SEGMENT: [(usize, u8); 8] = [
    (80, 0xff),
    (81, 0xff),
    (82, 0xff),
    (83, 0xff),
    (84, 0xff),
    (85, 0xff),
    (86, 0xff),
    (87, 0xff),
];

#[test]
fn refuses_each_changed_header(rt: HostRuntime) {
    let table: [(&[(usize, u8)], Cause, u64); 17] = [
        (&[(4, 1)], Cause::Class, 0),
        (&[(6, 0)], Cause::Class, 0),
        (&[(16, 1)], Cause::FileType, 0),
        (&[(54, 0)], Cause::Table, 0),
        (&[(60, 0)], Cause::Table, 0),
        (&[(62, 5)], Cause::Table, 0),
        (&HIGHEST_SEGMENT, Cause::Range, 64),
        (&[(64, 0)], Cause::NoLoad, 0),
        (&[(673, 1)], Cause::Table, 639),
        (&[(575, 0x0f)], Cause::SectionTwice, 575),
        (&[(515, 8)], Cause::Table, 511),
        (&[(520, 8)], Cause::Compressed, 511),
        (&[(481, 1)], Cause::Table, 447),
        (&[(0, 0x7e)], Cause::NotElf, 0),
        // the name section is SHT_NOBITS, or compressed
        (&[(643, 8)], Cause::Table, 639),
        (&[(648, 8)], Cause::Table, 639),
        // a second .debug_info, of type SHT_NOBITS
        (&[(575, 0x0f), (579, 8)], Cause::SectionTwice, 575),
    ];
    for (edits, cause, at) in table {
        are_equal(
            &rt,
            (edits, Object::find(&changed(edits)).err()),
            (edits, elf(cause, at)),
        );
    }
}

#[test]
fn reads_a_file_without_section_headers(rt: HostRuntime) {
    let edits: [(usize, u8); 10] = [
        (40, 0),
        (41, 0),
        (42, 0),
        (43, 0),
        (44, 0),
        (45, 0),
        (46, 0),
        (47, 0),
        (60, 0),
        (61, 0),
    ];
    let none = span(0, 0);
    let layout = Layout {
        debug_info: none,
        debug_abbrev: none,
        debug_line: none,
        debug_line_str: none,
        debug_str: none,
        debug_str_offsets: none,
        debug_addr: none,
        debug_rnglists: none,
        low: 0x1000,
        high: 0x2000,
    };
    are_equal(&rt, Object::find(&changed(&edits)), Ok(layout));
}

/// Checks the fault of the first sample for each of these sizes of its name section.
fn are_refused(rt: &impl Abort, from: u8, past: u8, at: u64) {
    for size in from..past {
        are_equal(
            rt,
            (size, Object::find(&changed(&[(671, size)])).err()),
            (size, elf(Cause::Table, at)),
        );
    }
}

/// Refuses the first header whose name is truncated by the end of the name section.
#[test]
fn refuses_a_cut_name_section(rt: HostRuntime) {
    let headers = [
        (0, 1, 383),
        (1, 15, 447),
        (15, 27, 511),
        (27, 39, 575),
        (39, 49, 639),
    ];
    for (from, past, at) in headers {
        are_refused(&rt, from, past, at);
    }
    are_equal(&rt, Object::find(&changed(&[(671, 49)])).err(), None);
}

#[test]
fn refuses_a_cut_file(rt: HostRuntime) {
    for n in 0..inlined().len() {
        let cause = if n < 64 { Cause::NotElf } else { Cause::Table };
        are_equal(
            &rt,
            (n, Object::find(&inlined()[..n]).err()),
            (n, elf(cause, 0)),
        );
    }
}

#[test]
fn refuses_a_longer_file_that_is_cut(rt: HostRuntime) {
    for n in 64..two_sequences().len() {
        let found = Object::find(&two_sequences()[..n]);
        are_equal(&rt, (n, found.err()), (n, elf(Cause::Table, 0)));
    }
}

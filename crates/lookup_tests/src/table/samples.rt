//! Tests of the sample objects.

use crate::checks::{are_equal, expect};
use crate::table::fixtures::*;
use addr_table::{Frames, Path};
use dwarf_samples::{
    dropped_main, dropped_mid, dropped_sequence, format_of_64_bits, inlined, leaf_without_code,
    two_sequences,
};
use std::process::Abort;
use std::test::*;

/// Returns the first sample without `.debug_info`.
fn without_entries() -> [u8; 703] {
    let mut object = inlined();
    object[543] = 0;
    object
}

#[test]
fn places_of_inlined_subroutines(rt: HostRuntime) {
    let module = sample(&rt, &inlined());
    are_equal(&rt, (module.low(), module.high()), (0x1000, 0x2000));
    let place = find(&module, 0x1004);
    are_equal(&rt, numbers(place), Some((Some(1), Some(4))));
    are_equal(&rt, place.is_some_and(|place| place.link() == 0x1004), true);
    // after the end of the sequence
    are_equal(&rt, find(&module, 0x1010), None);
    are_equal(&rt, find(&module, 0xfff), None);
}

/// The frames of `main`, and of `mid` inlined into it, at their innermost lines.
const MAIN: Expected = (Some(b"main"), Some(b"/src/a.c"), 20);

const MID: Expected = (Some(b"mid"), Some(b"/src/a.c"), 11);

#[test]
fn frames_of_inlined_subroutines(rt: HostRuntime) {
    let module = sample(&rt, &inlined());
    let leaf: Expected = (Some(b"leaf"), Some(b"/src/a.c"), 11);
    let mid: Expected = (Some(b"mid"), Some(b"/src/a.c"), 5);
    answers(&rt, &module, 0x1004, &[leaf, mid, MAIN]);
    let main: Expected = (Some(b"main"), Some(b"/src/a.c"), 10);
    answers(&rt, &module, 0x1000, &[main]);
    // the end of leaf is exclusive
    answers(&rt, &module, 0x1008, &[MID, MAIN]);
}

#[test]
fn a_row_alone_is_a_frame_without_a_name(rt: HostRuntime) {
    let module = sample(&rt, &without_entries());
    are_equal(&rt, numbers(find(&module, 0x1004)), Some((Some(1), None)));
    answers(&rt, &module, 0x1004, &[(None, Some(b"/src/a.c"), 11)]);
}

#[test]
fn the_first_covering_row_in_file_order(rt: HostRuntime) {
    // both sequences cover 0x1000 to 0x1010; the later one has line 98
    let module = sample(&rt, &two_sequences());
    let main: Expected = (Some(b"main"), Some(b"/src/a.c"), 12);
    answers(&rt, &module, 0x1000, &[main]);
    answers(&rt, &module, 0x100f, &[main]);
    are_equal(&rt, find(&module, 0x1010), None);
}

#[test]
fn a_scope_without_code_is_passed_over(rt: HostRuntime) {
    let module = sample(&rt, &leaf_without_code());
    answers(&rt, &module, 0x1004, &[MID, MAIN]);
}

#[test]
fn the_parts_of_a_path(rt: HostRuntime) {
    let module = sample(&rt, &inlined());
    let place = expect(&rt, find(&module, 0x1000), "no place");
    let frame = expect(&rt, module.frames(place).next(), "no frame");
    are_equal(&rt, frame.linkage(), None);
    let path = expect(&rt, frame.path(), "no path");
    are_parts(&rt, path);
    are_equal(&rt, Frames::none().next().is_none(), true);
}

/// Checks that the parts of a path are its directory and its name.
fn are_parts(rt: &impl Abort, path: Path<'_>) {
    let mut path = path;
    are_equal(rt, path.next(), Some(b"/src".as_slice()));
    are_equal(rt, path.next(), Some(b"a.c".as_slice()));
    are_equal(rt, path.next(), None);
}

/// Checks that the segments and a linear scan of an object give the same place of each address.
fn agree_with_scan(rt: &(impl Abort + AllocGlobal), object: &[u8]) {
    let module = sample(rt, object);
    for link in 0xff0..0x1021 {
        agrees_with_scan(rt, &module, link);
    }
    agrees_with_scan(rt, &module, 0);
    agrees_with_scan(rt, &module, u64::MAX);
}

#[test]
fn segments_and_scan_return_the_same_places(rt: HostRuntime) {
    agree_with_scan(&rt, &inlined());
    agree_with_scan(&rt, &two_sequences());
    agree_with_scan(&rt, &leaf_without_code());
    agree_with_scan(&rt, &dropped_main());
    agree_with_scan(&rt, &dropped_mid());
    agree_with_scan(&rt, &dropped_sequence());
    agree_with_scan(&rt, &without_entries());
    agree_with_scan(&rt, &format_of_64_bits());
}

/// Returns an object with two sequences. The first has rows at 0x1000 and 0x1004 and ends at
/// 0x1014. The second has row 3 at `start` and ends `len` bytes after it.
fn sequences(start: u16, len: u8) -> [u8; 725] {
    let mut object = two_sequences();
    // advance_pc 4, and a special opcode that advances the line by 2
    object[328] = 0x02;
    object[329] = 0x04;
    object[330] = 0x14;
    object[339] = (start % 256) as u8;
    object[340] = (start / 256) as u8;
    object[352] = len;
    object
}

/// Checks the rows of addresses.
fn are_rows(rt: &(impl Abort + AllocGlobal), object: &[u8], expected: &[(u64, Option<usize>)]) {
    let module = sample(rt, object);
    for pair in expected {
        let (link, row) = *pair;
        let actual = find(&module, link).and_then(|place| place.row());
        are_equal(rt, (link, actual), (link, row));
    }
    agree_with_scan(rt, object);
}

#[test]
fn sequences_in_descending_order(rt: HostRuntime) {
    let expected = [
        (0xfef, None),
        (0xff0, Some(3)),
        (0xfff, Some(3)),
        (0x1000, Some(0)),
        (0x1004, Some(1)),
        (0x1013, Some(1)),
        (0x1014, None),
    ];
    are_rows(&rt, &sequences(0xff0, 0x10), &expected);
}

#[test]
fn sequences_that_overlap_at_their_ends(rt: HostRuntime) {
    let expected = [
        (0x1000, Some(0)),
        (0x1008, Some(1)),
        (0x1013, Some(1)),
        (0x1014, Some(3)),
        (0x1017, Some(3)),
        (0x1018, None),
    ];
    are_rows(&rt, &sequences(0x1008, 0x10), &expected);
}

#[test]
fn a_sequence_that_starts_between_two_rows_of_another(rt: HostRuntime) {
    let expected = [
        (0x1001, Some(0)),
        (0x1002, Some(0)),
        (0x1004, Some(1)),
        (0x1014, Some(3)),
        (0x1015, Some(3)),
        (0x1016, None),
    ];
    are_rows(&rt, &sequences(0x1002, 0x14), &expected);
}

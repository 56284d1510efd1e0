//! The limit on the range items of an object.

use crate::fixtures::*;
use dwarf_bytes::Cause;
use dwarf_entries::Sections;
use std::process::Abort;
use std::test::*;

/// The unit has low_pc as addr. The subprograms have ranges as sec_offset, or low_pc as addr and
/// high_pc as data1.
const TABLE: [u8; 24] = [
    1, 0x11, 1, 0x11, 0x01, 0, 0, 2, 0x2e, 0, 0x55, 0x17, 0, 0, 3, 0x2e, 0, 0x11, 0x01, 0x12, 0x0b,
    0, 0, 0,
];

/// A low_pc of 0. `DROPPED` is the tombstone.
const LIVE: [u8; 8] = [0; 8];

const DROPPED: [u8; 8] = [0xff; 8];

/// A subprogram with low_pc and high_pc.
const PAIR: [u8; 10] = [3, 0xff, 0xff, 0xff, 0xff, 0xff, 0xff, 0xff, 0xff, 1];

/// Builds a unit with this low_pc and `count` subprograms, followed by the entries `later`. The
/// first subprogram is at offset 21. Each has five bytes and refers to the list at offset 0.
fn listed_scopes(
    rt: &(impl Abort + AllocGlobal),
    low_pc: &[u8; 8],
    count: usize,
    later: &[u8],
) -> Vec<u8> {
    let mut entries = Vec::new(rt.alloc());
    put(rt, &mut entries, &[1]);
    put(rt, &mut entries, low_pc);
    for _ in 0..count {
        put(rt, &mut entries, &[2, 0, 0, 0, 0]);
    }
    put(rt, &mut entries, later);
    put(rt, &mut entries, &[0]);
    unit(rt, &entries)
}

/// Builds a list with `count` entries offset_pair 0 to 0.
fn empty_pairs(rt: &(impl Abort + AllocGlobal), count: usize) -> Vec<u8> {
    let mut list = Vec::new(rt.alloc());
    for _ in 0..count {
        put(rt, &mut list, &[4, 0, 0]);
    }
    put(rt, &mut list, &[0]);
    list
}

/// Checks whether a unit with this low_pc is refused at offset 341 for its range items. The list
/// at offset 0 has 65,536 (2^16) entries, and each subprogram reads all of them.
fn has_too_many(
    rt: &(impl Abort + AllocGlobal),
    low_pc: &[u8; 8],
    count: usize,
    later: &[u8],
    cause: Option<Cause>,
) {
    let lists = empty_pairs(rt, 65_536);
    let info = listed_scopes(rt, low_pc, count, later);
    let all = Sections {
        debug_rnglists: &lists,
        ..sections(&info, &TABLE)
    };
    has_fault(rt, &all, fault_if(cause, 341));
}

/// 64 scopes use up the limit of 2^22 items. Entries with a tombstone count too, and so does a
/// low_pc with a high_pc.
#[test]
fn range_items_of_an_object(rt: HostRuntime) {
    has_too_many(&rt, &LIVE, 65, &[], Some(Cause::TooMany));
    has_too_many(&rt, &DROPPED, 64, &[], None);
    has_too_many(&rt, &DROPPED, 64, &PAIR, Some(Cause::TooMany));
}

#[test]
fn empty_pairs_give_no_ranges(rt: HostRuntime) {
    let lists = empty_pairs(&rt, 65_536);
    let info = listed_scopes(&rt, &LIVE, 64, &[]);
    let all = Sections {
        debug_rnglists: &lists,
        ..sections(&info, &TABLE)
    };
    let read = scopes_of(&rt, &all);
    are_equal(&rt, read.scopes().len(), 64);
    for scope in read.scopes() {
        are_equal(&rt, scope.ranges(&read).len(), 0);
    }
}

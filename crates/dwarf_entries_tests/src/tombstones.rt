//! Tombstones: scopes and range list entries whose start or base is 2^64-1.

use crate::fixtures::*;
use dwarf_bytes::{Cause, LoadFault};
use dwarf_entries::{Range, Scopes, Sections};
use std::process::Abort;
use std::test::*;

/// A table of the addresses 0x1000 and 2^64-1, whose base is 8.
const ADDRESSES: [u8; 24] = [
    20, 0, 0, 0, 5, 0, 8, 0, 0, 0x10, 0, 0, 0, 0, 0, 0, 0xff, 0xff, 0xff, 0xff, 0xff, 0xff, 0xff,
    0xff,
];

/// A low_pc of a unit as an address (0x1000), and its addr_base.
const BELOW: [u8; 12] = [0, 0x10, 0, 0, 0, 0, 0, 0, 8, 0, 0, 0];

/// The same with the tombstone as low_pc.
const DROPPED: [u8; 12] = [0xff, 0xff, 0xff, 0xff, 0xff, 0xff, 0xff, 0xff, 8, 0, 0, 0];

/// Checks the ranges of a subprogram at offset 25 with these attributes, in a unit with these
/// attributes.
fn covers(
    rt: &(impl Abort + AllocGlobal),
    root: &[u8],
    scope: Attributes<'_>,
    list: &[u8],
    wanted: Result<&[Range], Cause>,
) {
    // low_pc as addr, addr_base as sec_offset
    let root: Attributes<'_> = (&[0x11, 1, 0x73, 0x17], root);
    let object = OneScope::new(rt, root, scope);
    let all = Sections {
        debug_addr: &ADDRESSES,
        debug_rnglists: list,
        ..object.sections()
    };
    covers_or_is_refused(rt, &all, at_25(wanted));
}

/// Returns these ranges, or a fault at offset 25.
fn at_25(wanted: Result<&[Range], Cause>) -> Result<&[Range], LoadFault> {
    match wanted {
        Ok(ranges) => Ok(ranges),
        Err(cause) => Err(fault(cause, 25)),
    }
}

/// Checks the ranges of a list with these entries.
fn lists(
    rt: &(impl Abort + AllocGlobal),
    root: &[u8],
    list: &[u8],
    wanted: Result<&[Range], Cause>,
) {
    covers(rt, root, (&[0x55, 0x17], &[0, 0, 0, 0]), list, wanted);
}

/// Each list has an entry with a tombstone, whose range would otherwise overflow or be backwards,
/// followed by start_length 0x3000, 5.
#[test]
fn entries_of_each_kind(rt: HostRuntime) {
    let entries: [&[u8]; 6] = [
        // startx_endx 1 and 0, startx_length 1, 0x10
        &[2, 1, 0],
        &[3, 1, 0x10],
        // start_end with end 1, start_length with length 1
        &[
            6, 0xff, 0xff, 0xff, 0xff, 0xff, 0xff, 0xff, 0xff, 1, 0, 0, 0, 0, 0, 0, 0,
        ],
        &[7, 0xff, 0xff, 0xff, 0xff, 0xff, 0xff, 0xff, 0xff, 1],
        // base_address and base_addressx, each followed by offset_pair 2 to 1
        &[5, 0xff, 0xff, 0xff, 0xff, 0xff, 0xff, 0xff, 0xff, 4, 2, 1],
        &[1, 1, 4, 2, 1],
    ];
    for entry in entries {
        is_skipped(&rt, entry);
    }
}

/// Checks that only start_length 0x3000, 5 gives a range in a list that starts with these bytes.
fn is_skipped(rt: &(impl Abort + AllocGlobal), start: &[u8]) {
    let mut list = Vec::new(rt.alloc());
    put(rt, &mut list, start);
    put(rt, &mut list, &[7, 0, 0x30, 0, 0, 0, 0, 0, 0, 5, 0]);
    lists(rt, &BELOW, &list, Ok(&[range(0x3000, 0x3005)]));
}

/// offset_pair 0 to 8 relative to the low_pc of the unit, and offset_pair 1 to 3 relative to a
/// base that the list sets after it.
#[test]
fn offsets_from_a_low_pc(rt: HostRuntime) {
    let list = [4, 0, 8, 5, 0, 0x20, 0, 0, 0, 0, 0, 0, 4, 1, 3, 0];
    let second = range(0x2001, 0x2003);
    lists(&rt, &BELOW, &list, Ok(&[range(0x1000, 0x1008), second]));
    lists(&rt, &DROPPED, &list, Ok(&[second]));
}

/// The operands after a tombstone are read and resolved.
#[test]
fn operands_are_checked(rt: HostRuntime) {
    let entries: [(&[u8], Cause); 7] = [
        (&[2, 1], Cause::Short),
        (&[2, 1, 2, 0], Cause::Index),
        (&[3, 1, 0x80], Cause::Short),
        (
            &[
                6, 0xff, 0xff, 0xff, 0xff, 0xff, 0xff, 0xff, 0xff, 0, 0, 0, 0, 0, 0, 0,
            ],
            Cause::Short,
        ),
        (
            &[7, 0xff, 0xff, 0xff, 0xff, 0xff, 0xff, 0xff, 0xff, 0x80],
            Cause::Short,
        ),
        (&[1, 1, 4, 0], Cause::Short),
        (&[1, 1, 8], Cause::RangeKind),
    ];
    for (list, cause) in entries {
        lists(&rt, &BELOW, list, Err(cause));
    }
}

#[test]
fn pairs(rt: HostRuntime) {
    let top = [0xff; 8];
    let both = [
        0xff, 0xff, 0xff, 0xff, 0xff, 0xff, 0xff, 0xff, 0, 0x10, 0, 0, 0, 0, 0, 0,
    ];
    let with_list = [0xff, 0xff, 0xff, 0xff, 0xff, 0xff, 0xff, 0xff, 0, 0, 0, 0];
    let main = [range(0x1000, 0x1010)];
    let none: [Range; 0] = [];
    let pairs: [(&[u8], &[u8], Result<&[Range], Cause>); 8] = [
        // low_pc by index: index 0, and index 1 which is a tombstone. high_pc is a count.
        (&[0x11, 0x29, 0x12, 0x0b], &[0, 0x10], Ok(&main)),
        (&[0x11, 0x29, 0x12, 0x0b], &[1, 0x10], Ok(&none)),
        (&[0x11, 1, 0x12, 0x21, 0x10], &top, Ok(&none)),
        // high_pc as an address
        (&[0x11, 1, 0x12, 1], &both, Ok(&none)),
        (&[0x11, 0x29, 0x12, 0x29], &[1, 0], Ok(&none)),
        // checks that are made before the start is looked at, and after it
        (&[0x11, 0x29, 0x12, 0x29], &[1, 2], Err(Cause::Index)),
        (&[0x11, 0x29, 0x12, 0x29], &[2, 1], Err(Cause::Index)),
        (&[0x11, 1, 0x55, 0x17], &with_list, Err(Cause::PcAndRanges)),
    ];
    for (declared, values, wanted) in pairs {
        covers(&rt, &BELOW, (declared, values), &[0], wanted);
    }
}

/// A sum of 2^64-1 is not a tombstone, and neither is an end of 2^64-1.
#[test]
fn sums_and_ends_at_the_top(rt: HostRuntime) {
    let last = [range(u64::MAX - 1, u64::MAX)];
    let none: [Range; 0] = [];
    let pairs: [(u8, u8, Result<&[Range], Cause>); 4] = [
        (0, 1, Ok(&last)),
        (1, 1, Ok(&none)),
        (1, 0, Err(Cause::RangeBackwards)),
        (1, 2, Err(Cause::Overflow)),
    ];
    for (from, to, wanted) in pairs {
        // base_address 2^64-2, and offset_pair
        let list = [
            5, 0xfe, 0xff, 0xff, 0xff, 0xff, 0xff, 0xff, 0xff, 4, from, to, 0,
        ];
        lists(&rt, &BELOW, &list, wanted);
    }
    // start_length 2^64-2, 1
    let list = [7, 0xfe, 0xff, 0xff, 0xff, 0xff, 0xff, 0xff, 0xff, 1, 0];
    lists(&rt, &BELOW, &list, Ok(&last));
    // startx_endx 0 and 1
    lists(&rt, &BELOW, &[2, 0, 1, 0], Ok(&[range(0x1000, u64::MAX)]));
}

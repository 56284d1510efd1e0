//! Range lists.

use crate::fixtures::*;
use dwarf_bytes::Cause;
use dwarf_entries::{Range, Scope, Scopes, Sections};
use std::process::Abort;
use std::test::*;

/// A list of three ranges: relative to the initial base, relative to a base that the list sets,
/// and with a length.
const LIST: [u8; 29] = [
    4, 0, 8, // offset_pair 0 to 8
    4, 8, 8, // offset_pair 8 to 8, which is empty
    5, 0, 0x20, 0, 0, 0, 0, 0, 0, // base_address 0x2000
    4, 1, 3, // offset_pair 1 to 3
    7, 0, 0x30, 0, 0, 0, 0, 0, 0, 5, // start_length 0x3000, 5
    0, // end_of_list
];

/// A table of the addresses 0x1000 and 0x2000, whose base is 8.
pub const ADDRESSES: [u8; 24] = [
    20, 0, 0, 0, 5, 0, 8, 0, 0, 0x10, 0, 0, 0, 0, 0, 0, 0, 0x20, 0, 0, 0, 0, 0, 0,
];

#[test]
fn a_list_of_two_scopes(rt: HostRuntime) {
    // low_pc as addr, and ranges as sec_offset
    let table = declarations(&rt, (&[0x11, 0x01], &[]), (&[0x55, 0x17], &[]));
    let entries = [
        1, 0, 0x10, 0, 0, 0, 0, 0, 0, // 12: unit of low_pc 0x1000
        2, 0, 0, 0, 0, // 21: subprogram of the list at 0
        2, 0, 0, 0, 0, // 26: another one of the same list
        0,
    ];
    let info = unit(&rt, &entries);
    let all = Sections {
        debug_rnglists: &LIST,
        ..sections(&info, &table)
    };
    let read = scopes_of(&rt, &all);
    let ranges = [
        range(0x1000, 0x1008),
        range(0x2001, 0x2003),
        range(0x3000, 0x3005),
    ];
    are_equal(&rt, read.scopes().len(), 2);
    for scope in read.scopes() {
        cover(&rt, &read, scope, &ranges);
    }
}

/// Checks the ranges of a scope.
fn cover(rt: &impl Abort, read: &Scopes, scope: &Scope, ranges: &[Range]) {
    are_equal(rt, scope.ranges(read), ranges);
}

#[test]
fn a_list_without_a_base(rt: HostRuntime) {
    let scope: Attributes<'_> = (&[0x55, 0x17], &[0, 0, 0, 0]);
    let object = OneScope::new(&rt, (&[], &[]), scope);
    let all = Sections {
        debug_rnglists: &LIST,
        ..object.sections()
    };
    is_refused(&rt, &all, Cause::Base, 13);
}

/// Lists at offset 0 that a subprogram at offset 13 refers to, in a unit without bases. Each list
/// has no range, or has this fault.
const LISTS: [(&[u8], Option<Cause>); 21] = [
    // no list, and a list that is not terminated
    (&[], Some(Cause::Short)),
    (&[5, 0, 0, 0, 0, 0, 0, 0, 0], Some(Cause::Short)),
    // an unknown kind
    (&[8], Some(Cause::RangeKind)),
    (&[0xff, 0], Some(Cause::RangeKind)),
    // nothing after the end of the list is read
    (&[0, 8], None),
    // indexes without a table
    (&[1, 0, 0], Some(Cause::Base)),
    (&[2, 0, 0, 0], Some(Cause::Base)),
    (&[3, 0, 0, 0], Some(Cause::Base)),
    // offset_pair without a base: the operands are read before the missing base is reported
    (&[4, 0], Some(Cause::Short)),
    (&[4, 0, 0, 0], Some(Cause::Base)),
    // offsets beyond the highest address, which are reported before their order
    (
        &[
            5, 0xfe, 0xff, 0xff, 0xff, 0xff, 0xff, 0xff, 0xff, 4, 2, 0, 0,
        ],
        Some(Cause::Overflow),
    ),
    (
        &[
            5, 0xfe, 0xff, 0xff, 0xff, 0xff, 0xff, 0xff, 0xff, 4, 0, 2, 0,
        ],
        Some(Cause::Overflow),
    ),
    // offsets up to the highest address: a sum that is the highest address is not a tombstone
    (
        &[
            5, 0xfe, 0xff, 0xff, 0xff, 0xff, 0xff, 0xff, 0xff, 4, 1, 0, 0,
        ],
        Some(Cause::RangeBackwards),
    ),
    (
        &[
            5, 0xfe, 0xff, 0xff, 0xff, 0xff, 0xff, 0xff, 0xff, 4, 1, 1, 0,
        ],
        None,
    ),
    // offsets that are backwards
    (
        &[5, 0, 0, 0, 0, 0, 0, 0, 0, 4, 2, 1, 0],
        Some(Cause::RangeBackwards),
    ),
    // start_end that is backwards, one that is empty, and one that is truncated
    (
        &[6, 2, 0, 0, 0, 0, 0, 0, 0, 1, 0, 0, 0, 0, 0, 0, 0, 0],
        Some(Cause::RangeBackwards),
    ),
    (
        &[6, 2, 0, 0, 0, 0, 0, 0, 0, 2, 0, 0, 0, 0, 0, 0, 0, 0],
        None,
    ),
    (
        &[6, 2, 0, 0, 0, 0, 0, 0, 0, 1, 0, 0, 0, 0, 0, 0],
        Some(Cause::Short),
    ),
    // start_length beyond the highest address, one that is empty, and one that is truncated
    (
        &[7, 0xfe, 0xff, 0xff, 0xff, 0xff, 0xff, 0xff, 0xff, 2, 0],
        Some(Cause::Overflow),
    ),
    (
        &[7, 0xfe, 0xff, 0xff, 0xff, 0xff, 0xff, 0xff, 0xff, 0, 0],
        None,
    ),
    (&[7, 0, 0, 0, 0, 0, 0, 0, 0, 0x80], Some(Cause::Short)),
];

#[test]
fn lists_without_a_range(rt: HostRuntime) {
    let scope: Attributes<'_> = (&[0x55, 0x17], &[0, 0, 0, 0]);
    let object = OneScope::new(&rt, (&[], &[]), scope);
    for (list, cause) in LISTS {
        is_empty_or_refused(&rt, &object, list, cause);
    }
}

/// Checks that the subprogram has no range with this list, or that the list has this fault.
fn is_empty_or_refused(
    rt: &(impl Abort + AllocGlobal),
    object: &OneScope,
    list: &[u8],
    cause: Option<Cause>,
) {
    let all = Sections {
        debug_rnglists: list,
        ..object.sections()
    };
    match cause {
        None => covers_or_is_refused(rt, &all, Ok(&[])),
        Some(cause) => is_refused(rt, &all, cause, 13),
    }
}

//! Abbreviation codes in any order.

use crate::fixtures::*;
use crate::limits::three_bytes;
use dwarf_bytes::Cause;
use dwarf_entries::{Scope, ScopeKind, Scopes};
use std::process::Abort;
use std::test::*;

/// A table whose codes are not consecutive from 1.
const CODES: [u8; 22] = [
    5, 0x11, 1, 0, 0, // unit
    2, 0x2e, 0, 0, 0, // subprogram, in its own place
    1, 0x1d, 0, 0, 0, // inlined subroutine
    0x80, 0x02, 0x2e, 0, 0, 0, // 256: subprogram
    0,
];

#[test]
fn codes_out_of_order(rt: HostRuntime) {
    // 12: unit, then entries at offsets 13, 14, 15 and 17
    let info = unit(&rt, &[5, 2, 1, 0x80, 0x02, 2, 0]);
    let read = scopes_of(&rt, &sections(&info, &CODES));
    are_equal(&rt, read.roots(), [root(12, 0, 4)].as_slice());
    let wanted = [
        (13, ScopeKind::Subprogram),
        (14, ScopeKind::Inlined),
        (15, ScopeKind::Subprogram),
        (17, ScopeKind::Subprogram),
    ];
    are_four(&rt, &read, wanted);
}

/// Builds the declarations of a unit with children, whose code is 1, and of alternating
/// subprograms and inlined subroutines, whose codes count up from 2.
fn kinds_in_turn(rt: &(impl Abort + AllocGlobal), last: u32) -> Vec<u8> {
    let mut table = Vec::new(rt.alloc());
    put(rt, &mut table, &[1, 0x11, 1, 0, 0]);
    for code in 2..=last {
        let tag = if code % 2 == 0 { 0x2e } else { 0x1d };
        put(rt, &mut table, &three_bytes(code));
        put(rt, &mut table, &[tag, 0, 0, 0]);
    }
    put(rt, &mut table, &[0]);
    table
}

#[test]
fn codes_of_one_byte_and_of_two(rt: HostRuntime) {
    let table = kinds_in_turn(&rt, 129);
    // 12: unit, then entries at offsets 13, 14, 15 and 17
    let info = unit(&rt, &[1, 126, 127, 0x80, 1, 0x81, 1, 0]);
    let read = scopes_of(&rt, &sections(&info, &table));
    are_equal(&rt, read.roots(), [root(12, 0, 4)].as_slice());
    let wanted = [
        (13, ScopeKind::Subprogram),
        (14, ScopeKind::Inlined),
        (15, ScopeKind::Subprogram),
        (17, ScopeKind::Inlined),
    ];
    are_four(&rt, &read, wanted);
}

#[test]
fn codes_up_to_511_and_above(rt: HostRuntime) {
    let table = kinds_in_turn(&rt, 513);
    // 12: unit, then entries at offsets 13, 15, 17 and 19, the last with code 2 in three bytes
    let info = unit(&rt, &[1, 0xff, 3, 0x80, 4, 0x81, 4, 0x82, 0x80, 0, 0]);
    let read = scopes_of(&rt, &sections(&info, &table));
    are_equal(&rt, read.roots(), [root(12, 0, 4)].as_slice());
    let wanted = [
        (13, ScopeKind::Inlined),
        (15, ScopeKind::Subprogram),
        (17, ScopeKind::Inlined),
        (19, ScopeKind::Subprogram),
    ];
    are_four(&rt, &read, wanted);
}

/// Checks the offsets and kinds of four scopes, and that there are no more.
fn are_four(rt: &impl Abort, read: &Scopes, wanted: [(usize, ScopeKind); 4]) {
    are_equal(rt, read.scopes().len(), 4);
    for (scope, wanted) in read.scopes().iter().zip(wanted) {
        is_scope(rt, scope, wanted);
    }
}

/// Checks the offset and the kind of a scope.
fn is_scope(rt: &impl Abort, scope: &Scope, wanted: (usize, ScopeKind)) {
    are_equal(rt, (scope.offset(), scope.kind()), wanted);
}

/// A unit with children, subprograms, and entries whose tag is 65,536 plus that of a subprogram.
const LONG_TAG: [u8; 18] = [
    1, 0x11, 1, 0, 0, // unit
    2, 0x2e, 0, 0, 0, // subprogram
    3, 0xae, 0x80, 0x04, 0, 0, 0, // 0x1002e
    0,
];

#[test]
fn tags_of_more_than_16_bits(rt: HostRuntime) {
    // 12: unit, then entries at offsets 13, 14 and 15
    let info = unit(&rt, &[1, 2, 3, 2, 0]);
    let read = scopes_of(&rt, &sections(&info, &LONG_TAG));
    are_equal(&rt, read.roots(), [root(12, 0, 2)].as_slice());
    are_equal(&rt, read.scopes().len(), 2);
    for (scope, offset) in read.scopes().iter().zip([13, 15]) {
        is_scope(&rt, scope, (offset, ScopeKind::Subprogram));
    }
}

#[test]
fn codes_of_no_declaration(rt: HostRuntime) {
    let last: [u8; 10] = [0xff, 0xff, 0xff, 0xff, 0xff, 0xff, 0xff, 0xff, 0xff, 0x01];
    let unknown: [&[u8]; 7] = [&[3], &[4], &[6], &[0xff, 1], &[0x81, 2], &[0x85, 2], &last];
    for code in unknown {
        is_invalid_code(&rt, code);
    }
}

/// Checks that an entry of this code, at offset 13, is refused.
fn is_invalid_code(rt: &(impl Abort + AllocGlobal), code: &[u8]) {
    let mut entries = Vec::new(rt.alloc());
    put(rt, &mut entries, &[5]);
    put(rt, &mut entries, code);
    put(rt, &mut entries, &[0]);
    is_invalid_unit(rt, &entries, &CODES, Cause::AbbrevCode, 13);
}

//! Units, and the trees of their entries.

use crate::fixtures::*;
use dwarf_bytes::Cause;
use dwarf_entries::{Scope, ScopeKind};
use std::process::Abort;
use std::test::*;

/// Declarations without attributes.
pub const TREES: [u8; 31] = [
    1, 0x2e, 1, 0, 0, // subprogram with children
    2, 0x2e, 0, 0, 0, // subprogram without
    3, 0x34, 0, 0, 0, // variable without
    4, 0x11, 1, 0, 0, // compilation unit with children
    5, 0x0b, 1, 0, 0, // lexical block with children
    6, 0x1d, 1, 0, 0, // inlined subroutine with children
    0,
];

/// A unit with eight entries, by their offsets in the section.
const TREE: [u8; 13] = [
    4, // 12: root
    1, // 13: a subprogram
    3, // 14: its variable
    5, // 15: its block
    2, // 16: a subprogram in the block
    0, // 17: end of the block
    6, // 18: an inlined subroutine
    2, // 19: a subprogram in it
    0, // 20: end of the inlined subroutine
    0, // 21: end of the subprogram
    2, // 22: another subprogram
    0, // 23: end of the root
    0, // 24: padding
];

/// Returns a scope without attributes.
pub fn bare(offset: usize, end: usize) -> Row {
    Row {
        kind: ScopeKind::Subprogram,
        offset,
        end,
        range: None,
        name: None,
        call: None,
    }
}

/// Checks that a unit with these entries is refused.
fn is_invalid_tree(rt: &(impl Abort + AllocGlobal), entries: &[u8], cause: Cause, at: u64) {
    is_invalid_unit(rt, entries, &TREES, cause, at);
}

#[test]
fn scopes_of_three_trees(rt: HostRuntime) {
    let units: [Unit<'_>; 5] = [
        (1, 0, &TREE),
        // padding at offset 37, a root at 38, a subprogram at 39
        (1, 0, &[0, 4, 2, 0]),
        // only padding
        (1, 0, &[0]),
        // no bytes
        (1, 0, &[]),
        // a root at offset 78 that is a subprogram
        (3, 0, &[2]),
    ];
    let info = units_of(&rt, &units);
    let read = scopes_of(&rt, &sections(&info, &TREES));
    are_equal(
        &rt,
        read.roots(),
        [root(12, 0, 5), root(38, 5, 6), root(78, 6, 7)].as_slice(),
    );
    let rows = [
        bare(13, 4),
        bare(16, 2),
        Row {
            kind: ScopeKind::Inlined,
            ..bare(18, 4)
        },
        bare(19, 4),
        bare(22, 5),
        bare(39, 6),
        bare(78, 7),
    ];
    are_scopes(&rt, &read, None, &rows);
}

/// Builds nested subprograms, `below` of them below the root, which is a subprogram too.
fn nested(rt: &(impl Abort + AllocGlobal), below: usize) -> Vec<u8> {
    let depth = below.saturating_add(1);
    let mut entries = Vec::new(rt.alloc());
    put_copies(rt, &mut entries, 1, depth);
    put_copies(rt, &mut entries, 0, depth);
    unit(rt, &entries)
}

#[test]
fn entries_at_the_greatest_depth(rt: HostRuntime) {
    let info = nested(&rt, 256);
    let read = scopes_of(&rt, &sections(&info, &TREES));
    are_equal(&rt, read.roots(), [root(12, 0, 257)].as_slice());
    are_equal(&rt, read.scopes().len(), 257);
    for (number, scope) in read.scopes().iter().enumerate() {
        is_at(&rt, scope, number);
    }
}

/// Checks the number and the offset of a scope, and that it ends after the last of 257 scopes.
fn is_at(rt: &impl Abort, scope: &Scope, number: usize) {
    are_equal(rt, (scope.number(), scope.end()), (number, 257));
    are_equal(rt, Some(scope.offset()), number.checked_add(12));
}

#[test]
fn an_entry_below_the_greatest_depth(rt: HostRuntime) {
    let info = nested(&rt, 257);
    is_refused(&rt, &sections(&info, &TREES), Cause::TooDeep, 269);
}

#[test]
fn padding(rt: HostRuntime) {
    let trees: [(&[u8], usize); 5] = [
        (&[3, 0, 0], 12),
        (&[0, 0, 3], 14),
        (&[0, 4, 0, 0, 0], 13),
        // codes with redundant ULEB128 bytes
        (&[4, 0x80, 0, 0x80, 0x80, 0], 12),
        (&[0x83, 0], 12),
    ];
    for (entries, offset) in trees {
        is_only_root(&rt, entries, offset);
    }
    // a null entry before the root does not end a list, and a null entry after it does not start
    // one
    is_invalid_tree(&rt, &[0, 4], Cause::TreeOpen, 0);
    is_invalid_tree(&rt, &[3, 0, 3], Cause::TwoRoots, 14);
}

/// Checks the offset of the only root of a unit without scopes.
fn is_only_root(rt: &(impl Abort + AllocGlobal), entries: &[u8], offset: usize) {
    let info = unit(rt, entries);
    let read = scopes_of(rt, &sections(&info, &TREES));
    are_equal(rt, read.roots(), [root(offset, 0, 0)].as_slice());
}

/// Trees and codes that are refused.
#[test]
fn refused_trees(rt: HostRuntime) {
    let long = [
        4, 0x80, 0x80, 0x80, 0x80, 0x80, 0x80, 0x80, 0x80, 0x80, 0x80, 0,
    ];
    let refused: [(&[u8], Cause, u64); 9] = [
        // a second root
        (&[3, 3], Cause::TwoRoots, 13),
        (&[4, 2, 0, 4, 0], Cause::TwoRoots, 15),
        // a list of children that is not terminated
        (&[4], Cause::TreeOpen, 0),
        (&[4, 1, 2, 0], Cause::TreeOpen, 0),
        // an undeclared code, which is reported before a second root or an unterminated list
        (&[7], Cause::AbbrevCode, 12),
        (&[3, 7], Cause::AbbrevCode, 13),
        (&[4, 7], Cause::AbbrevCode, 13),
        // a truncated code, and a code of more than ten bytes
        (&[4, 0x80], Cause::Short, 13),
        (&long, Cause::Leb, 13),
    ];
    for (entries, cause, at) in refused {
        is_invalid_tree(&rt, entries, cause, at);
    }
}

/// An unterminated list of children is reported at the start of its unit.
#[test]
fn an_open_list_of_a_second_unit(rt: HostRuntime) {
    let units: [Unit<'_>; 2] = [(1, 0, &[4, 0]), (1, 0, &[4, 1, 0])];
    let open = Some(fault(Cause::TreeOpen, 14));
    have_fault(&rt, &units, &TREES, open);
}

//! The sample objects.

use crate::fixtures::*;
use crate::truncated::cut_at;
use dwarf_bytes::{Cause, LoadFault, Section};
use dwarf_entries::{Range, Root, Scope, ScopeKind, Scopes, TextOffset};
use dwarf_samples::{
    call_file_outside, circular_origins, cut_abbreviations, inlined, leaf_without_code,
    origin_of_no_entry, two_sequences, version_four,
};
use std::process::Abort;
use std::test::*;

/// Returns a subprogram with this name that has no code.
fn subprogram(offset: usize, end: usize, name: Option<TextOffset>) -> Row {
    Row {
        kind: ScopeKind::Subprogram,
        offset,
        end,
        range: None,
        name,
        call: None,
    }
}

/// Returns the scopes of the first object: `mid` and `leaf`, which have no code of their own,
/// `main`, `mid` inlined into `main`, and `leaf` inlined into that.
fn rows() -> [Row; 5] {
    let mid = text(Section::DebugInfo, 26);
    let leaf = text(Section::DebugInfo, 31);
    [
        subprogram(25, 1, mid),
        subprogram(30, 2, leaf),
        Row {
            range: Some(range(0x1000, 0x1010)),
            ..subprogram(36, 5, text(Section::DebugInfo, 37))
        },
        Row {
            kind: ScopeKind::Inlined,
            offset: 54,
            end: 5,
            range: Some(range(0x1004, 0x100c)),
            name: mid,
            call: Some((1, 20)),
        },
        Row {
            kind: ScopeKind::Inlined,
            offset: 73,
            end: 5,
            range: Some(range(0x1004, 0x1008)),
            name: leaf,
            call: Some((1, 5)),
        },
    ]
}

/// Checks that an object has one root and these scopes.
fn has(rt: &(impl Abort + AllocGlobal), object: &[u8], rows: &[Row]) {
    let read = scopes_of(rt, &sections_of(rt, object));
    let root = Root {
        offset: 12,
        stmt_list: Some(0),
        first: 0,
        past: 5,
    };
    are_equal(rt, read.roots(), [root].as_slice());
    are_scopes(rt, &read, Some(0), rows);
}

#[test]
fn scopes_of_a_sample(rt: HostRuntime) {
    has(&rt, &inlined(), &rows());
}

/// Shared data is looked up by the number of the scope, in whatever `Scopes` is passed.
#[test]
fn scopes_of_another_object(rt: HostRuntime) {
    let bare = leaf_without_code();
    let read = scopes_of(&rt, &sections_of(&rt, &inlined()));
    let leaf = expect(&rt, read.scopes().last(), "no scope");
    let call = (Some(1), Some(5));
    has_data(&rt, leaf, &read, Some(range(0x1004, 0x1008)), Some(0), call);
    let other = scopes_of(&rt, &sections_of(&rt, &bare));
    has_data(&rt, leaf, &other, None, Some(0), call);
    let none = scopes_of(&rt, &sections(&[], &[]));
    has_data(&rt, leaf, &none, None, None, (None, None));
}

/// Checks the shared data of a scope: its range, its line program and its call.
fn has_data(
    rt: &impl Abort,
    scope: &Scope,
    of: &Scopes,
    range: Option<Range>,
    stmt_list: Option<u64>,
    call: (Option<u64>, Option<u64>),
) {
    are_equal(rt, scope.ranges(of), range.as_slice());
    are_equal(rt, scope.stmt_list(of), stmt_list);
    are_equal(rt, call_of(of, scope), call);
}

#[test]
fn line_programs_are_not_read(rt: HostRuntime) {
    has(&rt, &two_sequences(), &rows());
}

#[test]
fn a_scope_without_code(rt: HostRuntime) {
    let mut rows = rows();
    rows[4].range = None;
    has(&rt, &leaf_without_code(), &rows);
}

/// The start of `main`, or of `mid` inlined into it, is the tombstone 2^64-1.
#[test]
fn scopes_of_dropped_code(rt: HostRuntime) {
    for (start, dropped) in [(205, 2), (222, 3)] {
        let mut object = inlined();
        object[start..start + 8].fill(0xff);
        let mut rows = rows();
        rows[dropped].range = None;
        has(&rt, &object, &rows);
    }
}

#[test]
fn a_call_file_is_not_checked(rt: HostRuntime) {
    let mut rows = rows();
    rows[3].call = Some((2, 20));
    has(&rt, &call_file_outside(), &rows);
}

/// Checks that an object is refused.
fn is_refused_object(rt: &(impl Abort + AllocGlobal), object: &[u8], fault: LoadFault) {
    has_fault(rt, &sections_of(rt, object), Some(fault));
}

#[test]
fn refused_samples(rt: HostRuntime) {
    is_refused_object(&rt, &cut_abbreviations(), cut_at(0));
    is_refused_object(&rt, &circular_origins(), fault(Cause::OriginDepth, 54));
    is_refused_object(&rt, &version_four(), fault(Cause::Version, 0));
    is_refused_object(&rt, &origin_of_no_entry(), fault(Cause::Reference, 54));
}

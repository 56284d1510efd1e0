//! Assertions about the results of the reader. These functions have no contracts, because the
//! proof that a test is safe does not depend on the results.

use crate::fixtures::*;
use dwarf_bytes::{Cause, LoadFault};
use dwarf_entries::{Range, Scope, ScopeKind, Scopes, Sections, TextOffset};
use std::fmt::Debug;
use std::process::Abort;
use std::test::*;

/// Checks that two values are equal.
pub fn are_equal<T: Copy + Debug + PartialEq>(rt: &impl Abort, actual: T, wanted: T) {
    assert_eq!(rt; actual, wanted);
}

/// Returns a value that must be there. Otherwise the test fails with this message.
pub fn expect<T>(rt: &impl Abort, value: Option<T>, missing: &str) -> T {
    match value {
        Some(value) => value,
        None => panic!(rt; "{missing}"),
    }
}

/// Reads the scopes of these sections.
pub fn scopes_of(rt: &(impl Abort + AllocGlobal), sections: &Sections<'_>) -> Scopes {
    expect(
        rt,
        Scopes::read(rt.alloc(), sections).ok(),
        "the sections are refused",
    )
}

/// Checks the fault of the sections, if any.
pub fn has_fault(
    rt: &(impl Abort + AllocGlobal),
    sections: &Sections<'_>,
    fault: Option<LoadFault>,
) {
    are_equal(rt, Scopes::read(rt.alloc(), sections).err(), fault);
}

/// Checks that the sections are refused with a fault of `.debug_info`.
pub fn is_refused(rt: &(impl Abort + AllocGlobal), sections: &Sections<'_>, cause: Cause, at: u64) {
    has_fault(rt, sections, Some(fault(cause, at)));
}

/// Checks the fault of these units, if any.
pub fn have_fault(
    rt: &(impl Abort + AllocGlobal),
    units: &[Unit<'_>],
    table: &[u8],
    fault: Option<LoadFault>,
) {
    let info = units_of(rt, units);
    has_fault(rt, &sections(&info, table), fault);
}

/// Checks that a unit with these entries is refused with a fault of `.debug_info`.
pub fn is_invalid_unit(
    rt: &(impl Abort + AllocGlobal),
    entries: &[u8],
    table: &[u8],
    cause: Cause,
    at: u64,
) {
    have_fault(rt, &[(1, 0, entries)], table, Some(fault(cause, at)));
}

/// Checks that the sections are read or refused as expected, and that the only scope has these
/// ranges.
pub fn covers_or_is_refused(
    rt: &(impl Abort + AllocGlobal),
    sections: &Sections<'_>,
    wanted: Result<&[Range], LoadFault>,
) {
    match Scopes::read(rt.alloc(), sections) {
        Ok(read) => are_equal(rt, only_ranges(&read), wanted.ok()),
        Err(actual) => are_equal(rt, Some(actual), wanted.err()),
    }
}

/// Returns the ranges of the only scope.
fn only_ranges(read: &Scopes) -> Option<&[Range]> {
    match read.scopes() {
        [scope] => Some(scope.ranges(read)),
        _ => None,
    }
}

/// Checks that the sections are read or refused as expected, and that the only scope has this
/// name.
pub fn is_named_or_refused(
    rt: &(impl Abort + AllocGlobal),
    sections: &Sections<'_>,
    wanted: Result<Option<TextOffset>, LoadFault>,
) {
    match Scopes::read(rt.alloc(), sections) {
        Ok(read) => are_equal(rt, only_name(&read), wanted.ok()),
        Err(actual) => are_equal(rt, Some(actual), wanted.err()),
    }
}

/// Returns the name of the only scope.
fn only_name(read: &Scopes) -> Option<Option<TextOffset>> {
    match read.scopes() {
        [scope] => Some(scope.name()),
        _ => None,
    }
}

/// The expected data of a scope. Its number is its index in the list of rows.
#[derive(Clone, Copy, Debug, PartialEq, Eq)]
pub struct Row {
    pub kind: ScopeKind,
    pub offset: usize,
    pub end: usize,
    pub range: Option<Range>,
    pub name: Option<TextOffset>,
    pub call: Option<(u64, u64)>,
}

/// Checks the number, the kind, the offset and the end of a scope.
fn is_at(rt: &impl Abort, scope: &Scope, number: usize, row: &Row) {
    let actual = (scope.number(), scope.kind(), scope.offset(), scope.end());
    are_equal(rt, actual, (number, row.kind, row.offset, row.end));
}

/// Checks that a scope has at most one range, and a name without a linkage name.
fn is_named(rt: &impl Abort, read: &Scopes, scope: &Scope, row: &Row) {
    are_equal(rt, scope.ranges(read), row.range.as_slice());
    let names = (scope.name(), scope.linkage_name());
    are_equal(rt, names, (row.name, None));
}

/// Returns the file and the line of the call of a scope.
pub fn call_of(read: &Scopes, scope: &Scope) -> (Option<u64>, Option<u64>) {
    (scope.call_file(read), scope.call_line(read))
}

/// Checks the call site of a scope.
fn is_called(rt: &impl Abort, read: &Scopes, scope: &Scope, call: Option<(u64, u64)>) {
    let wanted = match call {
        Some((file, line)) => (Some(file), Some(line)),
        None => (None, None),
    };
    are_equal(rt, call_of(read, scope), wanted);
}

/// Checks that the scopes are these, each with at most one range, without linkage names.
pub fn are_scopes(rt: &impl Abort, read: &Scopes, stmt_list: Option<u64>, rows: &[Row]) {
    are_equal(rt, read.scopes().len(), rows.len());
    for (number, (scope, row)) in read.scopes().iter().zip(rows).enumerate() {
        is_at(rt, scope, number, row);
        is_named(rt, read, scope, row);
        is_called(rt, read, scope, row.call);
        are_equal(rt, (number, scope.stmt_list(read)), (number, stmt_list));
    }
}

/// Returns the name of a scope, with its number.
fn numbered_name(scope: &Scope) -> (usize, Option<TextOffset>) {
    (scope.number(), scope.name())
}

/// Checks the names of scopes.
pub fn have_names(rt: &impl Abort, read: &Scopes, names: &[Option<TextOffset>]) {
    are_equal(rt, read.scopes().len(), names.len());
    for (number, (scope, name)) in read.scopes().iter().zip(names).enumerate() {
        are_equal(rt, numbered_name(scope), (number, *name));
    }
}

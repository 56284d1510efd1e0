//! Helpers shared by the tests.

use std::fmt::Debug;
use std::process::Abort;
use std::test::*;

/// Checks that two values are equal.
pub fn are_equal<T: Copy + Debug + PartialEq>(rt: &impl Abort, actual: T, wanted: T) {
    assert_eq!(rt; actual, wanted);
}

/// Returns a value that must be there. Otherwise the test fails with this message.
pub fn expect<T>(rt: &impl Abort, value: Option<T>, missing: &str) -> T {
    match value {
        Some(value) => value,
        None => panic!(rt; "{missing}"),
    }
}

/// Appends bytes.
pub fn put(rt: &impl Abort, bytes: &mut Vec<u8>, more: &[u8]) {
    expect(rt, bytes.extend_from_slice(more).ok(), "out of memory");
}

/// Appends the same bytes `count` times.
pub fn put_many(rt: &impl Abort, bytes: &mut Vec<u8>, count: usize, more: &[u8]) {
    for _ in 0..count {
        put(rt, bytes, more);
    }
}

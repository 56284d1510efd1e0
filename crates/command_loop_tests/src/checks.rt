//! Assertions. These functions have no contracts, because the proof that a test is safe does not
//! depend on the results.

use std::fmt::Debug;
use std::process::Abort;
use std::test::*;

/// Checks that two values are equal.
pub fn are_equal<T: Copy + Debug + PartialEq>(rt: &impl Abort, actual: T, wanted: T) {
    assert_eq!(rt; actual, wanted);
}

/// Returns a value that must be there. Otherwise the test fails with this message.
pub fn expect<T>(rt: &impl Abort, value: Option<T>, missing: &str) -> T {
    match value {
        Some(value) => value,
        None => panic!(rt; "{missing}"),
    }
}

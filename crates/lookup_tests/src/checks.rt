//! Helpers shared by the tests.

use std::fmt::Debug;
use std::process::Abort;
use std::test::*;

/// Checks that two values are equal.
pub fn are_equal<T: Copy + Debug + PartialEq>(rt: &impl Abort, actual: T, wanted: T) {
    assert_eq!(rt; actual, wanted);
}

/// Returns a value that must be there. Otherwise the test fails with this message.
pub fn expect<T>(rt: &impl Abort, value: Option<T>, missing: &str) -> T {
    match value {
        Some(value) => value,
        None => panic!(rt; "{missing}"),
    }
}

/// Moves a value to the heap. There one call drops it, instead of code for each field in each test,
/// which takes the prover two seconds.
pub fn boxed<T: Drop>(rt: &(impl Abort + AllocGlobal), value: T) -> Box<T> {
    expect(rt, Box::new(rt.alloc(), value).ok(), "out of memory")
}

/// Copies bytes.
pub fn copy(rt: &(impl Abort + AllocGlobal), bytes: &[u8]) -> Vec<u8> {
    expect(rt, bytes.to_vec(rt.alloc()).ok(), "out of memory")
}

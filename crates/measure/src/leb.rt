//! Reads consecutive LEB128 numbers.

use dwarf_bytes::Cursor;

/// The count of numbers, and their sum modulo 2^64.
#[derive(Clone, Copy, Debug)]
pub struct Numbers {
    pub count: u64,
    pub sum: u64,
}

/// Reads numbers from the start of the bytes up to the first fault.
pub fn total(bytes: &[u8]) -> Numbers {
    let mut cursor = Cursor::new(bytes);
    let mut total = Numbers { count: 0, sum: 0 };
    while cursor.place() < bytes.len() {
        let Ok(value) = cursor.uleb() else {
            break;
        };
        total.count = total.count.wrapping_add(1);
        total.sum = total.sum.wrapping_add(value);
    }
    total
}

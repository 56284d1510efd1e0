//! Each form, with a value and with that value truncated.

use crate::checks::{are_equal, expect};
use dwarf_bytes::{Cursor, Format, ReadFault};
use dwarf_forms::{Content, Value, ValueFault, value};
use std::process::Abort;
use std::test::*;

/// Reads a value in a form. Returns it and the number of bytes read.
fn read(form: u64, format: Format, bytes: &[u8]) -> (Result<Value<'_>, ValueFault>, usize) {
    let mut cursor = Cursor::new(bytes);
    let value = value(form, format, None, &mut cursor);
    (value, cursor.place())
}

/// Returns the form and the number of a value.
fn number_of(value: Result<Value<'_>, ValueFault>) -> Option<(u64, u64)> {
    match value {
        Ok(
            Value {
                form,
                content: Content::Number(number),
            },
        ) => Some((form, number)),
        _ => None,
    }
}

/// Returns the bytes of a block.
fn block_of(value: Result<Value<'_>, ValueFault>) -> Option<&[u8]> {
    match value {
        Ok(
            Value {
                content: Content::Bytes(bytes),
                ..
            },
        ) => Some(bytes),
        _ => None,
    }
}

/// Returns the form and the number of a signed value.
fn signed_of(value: Result<Value<'_>, ValueFault>) -> Option<(u64, i64)> {
    match value {
        Ok(
            Value {
                form,
                content: Content::Signed(number),
            },
        ) => Some((form, number)),
        _ => None,
    }
}

/// Checks that the bytes are invalid in a form, and that the cursor does not move.
fn has_fault(rt: &impl Abort, form: u64, bytes: &[u8], fault: ValueFault) {
    let (value, place) = read(form, Format::Dwarf32, bytes);
    are_equal(rt, (form, value.err(), place), (form, Some(fault), 0));
}

/// Checks the fault of the bytes without the last one, if there are any.
fn cut_has_fault(rt: &impl Abort, form: u64, bytes: &[u8], fault: ReadFault) {
    if let Some((_, cut)) = bytes.split_last() {
        has_fault(rt, form, cut, ValueFault::Read(fault));
    }
}

/// Checks that all of the bytes encode the number in a form, and that one byte less is short.
fn is_number(rt: &impl Abort, form: u64, bytes: &[u8], number: u64) {
    let (value, place) = read(form, Format::Dwarf32, bytes);
    are_equal(
        rt,
        (number_of(value), place),
        (Some((form, number)), bytes.len()),
    );
    cut_has_fault(rt, form, bytes, ReadFault::Short);
}

/// Checks that all of the bytes encode the block in a form, and the fault of one byte less.
fn is_block(rt: &impl Abort, form: u64, bytes: &[u8], block: &[u8], cut: ReadFault) {
    let (value, place) = read(form, Format::Dwarf32, bytes);
    let actual = (form, block_of(value), place);
    are_equal(rt, actual, (form, Some(block), bytes.len()));
    cut_has_fault(rt, form, bytes, cut);
}

/// Checks that all of the bytes encode the number in each of these forms, and that one byte less is
/// short.
fn are_numbers(rt: &impl Abort, forms: &[u64], bytes: &[u8], number: u64) {
    for form in forms {
        is_number(rt, *form, bytes, number);
    }
}

#[test]
fn numbers(rt: HostRuntime) {
    let numbers: [(&[u64], &[u8], u64); 7] = [
        (&[0x0b, 0x0c, 0x11, 0x25, 0x29], &[1], 1),
        (&[0x05, 0x12, 0x26, 0x2a], &[1, 2], 513),
        (&[0x27, 0x2b], &[1, 2, 3], 197_121),
        (
            &[0x06, 0x13, 0x28, 0x2c, 0x0e, 0x1f, 0x17, 0x10],
            &[1, 2, 3, 4],
            67_305_985,
        ),
        (
            &[0x01, 0x07, 0x14, 0x20],
            &[1, 2, 3, 4, 5, 6, 7, 8],
            578_437_695_752_307_201,
        ),
        (&[0x0f, 0x15, 0x1a, 0x1b, 0x22, 0x23], &[0x80, 0x01], 128),
        (&[0x19], &[], 1),
    ];
    for (forms, bytes, number) in numbers {
        are_numbers(&rt, forms, bytes, number);
    }
}

#[test]
fn blocks_and_texts(rt: HostRuntime) {
    let sixteen = [1, 2, 3, 4, 5, 6, 7, 8, 9, 10, 11, 12, 13, 14, 15, 16];
    let blocks: [(u64, &[u8], &[u8], ReadFault); 7] = [
        (0x0a, &[2, 0xaa, 0xbb], &[0xaa, 0xbb], ReadFault::Short),
        (0x03, &[2, 0, 0xaa, 0xbb], &[0xaa, 0xbb], ReadFault::Short),
        (
            0x04,
            &[2, 0, 0, 0, 0xaa, 0xbb],
            &[0xaa, 0xbb],
            ReadFault::Short,
        ),
        (0x09, &[2, 0xaa, 0xbb], &[0xaa, 0xbb], ReadFault::Short),
        (0x18, &[2, 0xaa, 0xbb], &[0xaa, 0xbb], ReadFault::Short),
        (0x1e, &sixteen, &sixteen, ReadFault::Short),
        (0x08, &[0x61, 0], &[0x61], ReadFault::Unterminated),
    ];
    for (form, bytes, block, cut) in blocks {
        is_block(&rt, form, bytes, block, cut);
    }
}

#[test]
fn signed_numbers(rt: HostRuntime) {
    let (value, place) = read(0x0d, Format::Dwarf32, &[0x7f]);
    are_equal(&rt, (signed_of(value), place), (Some((0x0d, -1)), 1));
    cut_has_fault(&rt, 0x0d, &[0xff, 0], ReadFault::Short);
}

/// The value of DW_FORM_implicit_const is in the declaration, and no byte is read.
#[test]
fn constants_of_declarations(rt: HostRuntime) {
    let cases: [(&[u8], Format); 4] = [
        (&[], Format::Dwarf32),
        (&[], Format::Dwarf64),
        (&[1, 2, 3], Format::Dwarf32),
        (&[1, 2, 3], Format::Dwarf64),
    ];
    for (bytes, format) in cases {
        let mut cursor = Cursor::new(bytes);
        let value = value(0x21, format, Some(-1), &mut cursor);
        are_equal(
            &rt,
            (signed_of(value), cursor.place()),
            (Some((0x21, -1)), 0),
        );
    }
}

/// Offsets have eight bytes in the 64-bit format, also after DW_FORM_indirect. The widths of other
/// forms do not change.
#[test]
fn values_of_the_64_bit_format(rt: HostRuntime) {
    let bytes = [1, 2, 3, 4, 5, 6, 7, 8, 9];
    for (form, number, len) in [
        (0x0e, 578_437_695_752_307_201, 8),
        (0x1f, 578_437_695_752_307_201, 8),
        (0x17, 578_437_695_752_307_201, 8),
        (0x10, 578_437_695_752_307_201, 8),
        (0x06, 67_305_985, 4),
        (0x13, 67_305_985, 4),
        (0x28, 67_305_985, 4),
        (0x01, 578_437_695_752_307_201, 8),
    ] {
        let (value, place) = read(form, Format::Dwarf64, &bytes);
        are_equal(&rt, (number_of(value), place), (Some((form, number)), len));
    }
}

#[test]
fn cut_values_of_the_64_bit_format(rt: HostRuntime) {
    for (form, bytes) in [
        (0x0e, [1, 2, 3, 4, 5, 6, 7].as_slice()),
        (0x16, &[0x0e, 1, 2, 3, 4, 5, 6, 7]),
    ] {
        let (value, place) = read(form, Format::Dwarf64, bytes);
        let short = ValueFault::Read(ReadFault::Short);
        are_equal(&rt, (form, value.err(), place), (form, Some(short), 0));
    }
}

/// Truncated values.
#[test]
fn cut_values(rt: HostRuntime) {
    has_fault(&rt, 0x06, &[1, 2], ValueFault::Read(ReadFault::Short));
    has_fault(
        &rt,
        0x08,
        &[0x61],
        ValueFault::Read(ReadFault::Unterminated),
    );
}

#[test]
fn indirect_forms(rt: HostRuntime) {
    let (value, place) = read(0x16, Format::Dwarf32, &[0x0b, 7]);
    are_equal(&rt, (number_of(value), place), (Some((0x0b, 7)), 2));
    for inner in [0x16, 0x21, 0x1c] {
        has_fault(&rt, 0x16, &[inner, 0, 0], ValueFault::Form);
    }
    has_fault(&rt, 0x16, &[0x0b], ValueFault::Read(ReadFault::Short));
}

#[test]
fn refused_forms(rt: HostRuntime) {
    for form in [0, 2, 0x1c, 0x1d, 0x21, 0x24, 0x2d, 0x1f01, u64::MAX] {
        has_fault(&rt, form, &[0; 16], ValueFault::Form);
    }
}

/// Checks the message of a fault.
fn is_printed(rt: &(impl Abort + AllocGlobal), fault: ValueFault, message: &str) {
    let text = expect(rt, fault.to_string(rt.alloc()).ok(), "out of memory");
    are_equal(rt, text.as_str(), message);
}

#[test]
fn prints_value_faults(rt: HostRuntime) {
    let messages = [
        (ValueFault::Read(ReadFault::Short), "short"),
        (ValueFault::Read(ReadFault::Leb), "leb"),
        (ValueFault::Read(ReadFault::Unterminated), "unterminated"),
        (ValueFault::Form, "form"),
    ];
    for (fault, message) in messages {
        is_printed(&rt, fault, message);
    }
}

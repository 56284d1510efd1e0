//! Attribute forms, and the contents of values.

use crate::checks::are_equal;
use dwarf_bytes::{Content, Cursor, Form, Format, ReadFault, ValueLayout, Width};
use std::process::Abort;
use std::test::*;

/// Checks that each of these forms has a layout.
fn have_layout(rt: &impl Abort, layout: ValueLayout, numbers: &[u64]) {
    for number in numbers {
        are_equal(
            rt,
            (number, Form::of(*number)),
            (number, Some(Form::Direct(layout))),
        );
    }
}

/// The layouts of the forms of DWARF 5, table 7.6.
#[test]
fn knows_the_forms(rt: HostRuntime) {
    let layouts: [(ValueLayout, &[u64]); 13] = [
        (
            ValueLayout::Fixed(Width::One),
            &[0x0b, 0x0c, 0x11, 0x25, 0x29],
        ),
        (ValueLayout::Fixed(Width::Two), &[0x05, 0x12, 0x26, 0x2a]),
        (ValueLayout::Fixed(Width::Three), &[0x27, 0x2b]),
        (ValueLayout::Fixed(Width::Four), &[0x06, 0x13, 0x28, 0x2c]),
        (ValueLayout::Fixed(Width::Eight), &[0x01, 0x07, 0x14, 0x20]),
        (ValueLayout::Offset, &[0x0e, 0x10, 0x17, 0x1f]),
        (ValueLayout::Present, &[0x19]),
        (ValueLayout::Signed, &[0x0d]),
        (ValueLayout::Unsigned, &[0x0f, 0x15, 0x1a, 0x1b, 0x22, 0x23]),
        (ValueLayout::Text, &[0x08]),
        (ValueLayout::Sixteen, &[0x1e]),
        (ValueLayout::Block(Width::One), &[0x0a]),
        (ValueLayout::LongBlock, &[0x09, 0x18]),
    ];
    for (layout, numbers) in layouts {
        have_layout(&rt, layout, numbers);
    }
}

#[test]
fn knows_the_other_forms(rt: HostRuntime) {
    let two = Form::Direct(ValueLayout::Block(Width::Two));
    let four = Form::Direct(ValueLayout::Block(Width::Four));
    let forms = [
        // block forms with lengths of two and four bytes
        (0x03, Some(two)),
        (0x04, Some(four)),
        // the forms that are not direct
        (0x16, Some(Form::Indirect)),
        (0x21, Some(Form::ImplicitConst)),
        // unknown forms
        (0x00, None),
        (0x02, None),
        (0x1c, None),
        (0x1d, None),
        (0x24, None),
        (0x2d, None),
        (0xffff, None),
    ];
    for (number, form) in forms {
        are_equal(&rt, (number, Form::of(number)), (number, form));
    }
}

#[test]
fn knows_forty_forms(rt: HostRuntime) {
    let mut count = 0usize;
    for number in 0..0x100 {
        if Form::of(number).is_some() {
            count = count.saturating_add(1);
        }
    }
    are_equal(&rt, count, 40);
}

/// Returns a content as a number, or the length of its bytes.
fn shown(content: Result<Content<'_>, ReadFault>) -> Result<i128, ReadFault> {
    match content {
        Ok(Content::Number(n)) => Ok(i128::from(n)),
        Ok(Content::Signed(n)) => Ok(i128::from(n)),
        Ok(Content::Bytes(bytes)) => Ok(bytes.len() as i128),
        Err(fault) => Err(fault),
    }
}

#[test]
fn reads_each_layout(rt: HostRuntime) {
    let table: [(ValueLayout, &[u8], Result<i128, ReadFault>, usize); 16] = [
        (ValueLayout::Fixed(Width::Three), &[1, 2, 3], Ok(197_121), 3),
        (
            ValueLayout::Fixed(Width::Four),
            &[1, 2],
            Err(ReadFault::Short),
            0,
        ),
        (ValueLayout::Offset, &[4, 3, 2, 1], Ok(0x0102_0304), 4),
        (ValueLayout::Present, &[], Ok(1), 0),
        (ValueLayout::Signed, &[0x7f], Ok(-1), 1),
        (ValueLayout::Unsigned, &[0x7f], Ok(127), 1),
        (ValueLayout::Text, b"a\0", Ok(1), 2),
        (ValueLayout::Text, b"a", Err(ReadFault::Unterminated), 0),
        (ValueLayout::Sixteen, &[0; 16], Ok(16), 16),
        (ValueLayout::Sixteen, &[0; 15], Err(ReadFault::Short), 0),
        (ValueLayout::Block(Width::One), &[2, 0xaa, 0xbb], Ok(2), 3),
        (ValueLayout::Block(Width::Two), &[1, 0, 0xaa], Ok(1), 3),
        (
            ValueLayout::Block(Width::Four),
            &[2, 0, 0, 0, 0xaa],
            Err(ReadFault::Short),
            0,
        ),
        (ValueLayout::LongBlock, &[0x81, 0x00, 0xaa], Ok(1), 3),
        (ValueLayout::LongBlock, &[2, 0xaa], Err(ReadFault::Short), 0),
        (ValueLayout::LongBlock, &[0x80], Err(ReadFault::Short), 0),
    ];
    for (layout, bytes, want, place) in table {
        let mut cursor = Cursor::new(bytes);
        let got = shown(Content::read(layout, Format::Dwarf32, &mut cursor));
        are_equal(&rt, (layout, bytes, got), (layout, bytes, want));
        are_equal(&rt, (layout, bytes, cursor.place()), (layout, bytes, place));
    }
}

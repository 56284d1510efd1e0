//! Numbers and strings read by a cursor.

use crate::checks::{are_equal, expect};
use dwarf_bytes::{Cursor, Format, ReadFault, Width, text_at};
use std::fmt::Debug;
use std::process::Abort;
use std::test::*;

const HIGH: u8 = 0xff;

/// Returns a cursor at offset 1 of the bytes.
fn at_one<'a>(rt: &impl Abort, bytes: &'a [u8]) -> Cursor<'a> {
    let mut cursor = Cursor::new(bytes);
    expect(rt, cursor.seek(1).ok(), "no byte");
    cursor
}

/// Returns the part of `len` bytes from a cursor on.
fn part_of<'a>(rt: &impl Abort, cursor: &Cursor<'a>, len: u64) -> Cursor<'a> {
    expect(rt, cursor.part(len).ok(), "the part is refused")
}

#[test]
fn reads_fixed_widths(rt: HostRuntime) {
    let bytes = [
        1, 2, 3, 4, 5, 6, 7, 8, 9, 10, 11, 12, 13, 14, 15, 16, 17, 18, 19,
    ];
    let mut cursor = Cursor::new(&bytes);
    are_equal(&rt, cursor.u8(), Ok(0x01));
    are_equal(&rt, cursor.u16(), Ok(0x0302));
    are_equal(&rt, cursor.u24(), Ok(0x0006_0504));
    are_equal(&rt, cursor.u32(), Ok(0x0a09_0807));
    are_equal(&rt, cursor.u64(), Ok(0x1211_100f_0e0d_0c0b));
    are_equal(&rt, cursor.place(), 18);
    are_equal(&rt, cursor.u16(), Err(ReadFault::Short));
    are_equal(&rt, cursor.place(), 18);
    are_equal(&rt, cursor.block(1), Ok([19].as_slice()));
    are_equal(&rt, cursor.block(1), Err(ReadFault::Short));
}

/// A number after the cursor is read near the end too, and the cursor does not move.
#[test]
fn reads_numbers_after_the_cursor(rt: HostRuntime) {
    let cursor = at_one(&rt, &[1, 2, 3, 4, 5, 6, 7, 8, 9, 10]);
    are_equal(&rt, cursor.number_after(0, Width::One), Some(0x02));
    are_equal(&rt, cursor.number_after(1, Width::Two), Some(0x0403));
    are_equal(&rt, cursor.number_after(1, Width::Three), Some(0x0005_0403));
    are_equal(&rt, cursor.number_after(0, Width::Four), Some(0x0504_0302));
    are_equal(
        &rt,
        cursor.number_after(1, Width::Eight),
        Some(0x0a09_0807_0605_0403),
    );
    are_equal(&rt, cursor.number_after(2, Width::Eight), None);
    are_equal(&rt, cursor.number_after(5, Width::Four), Some(0x0a09_0807));
    are_equal(&rt, cursor.number_after(6, Width::Four), None);
    are_equal(&rt, cursor.number_after(6, Width::Three), Some(0x000a_0908));
    are_equal(&rt, cursor.number_after(8, Width::Two), None);
    are_equal(&rt, cursor.number_after(8, Width::One), Some(0x0a));
    are_equal(&rt, cursor.number_after(9, Width::One), None);
    are_equal(&rt, cursor.place(), 1);
}

#[test]
fn seeks_to_the_end_and_no_further(rt: HostRuntime) {
    let mut cursor = Cursor::new(&[1, 2]);
    are_equal(&rt, cursor.seek(2), Ok(()));
    are_equal(&rt, cursor.seek(3), Err(ReadFault::Short));
    are_equal(&rt, cursor.place(), 2);
}

/// A part ends `len` bytes after the cursor. Its offsets are relative to the start of the whole.
#[test]
fn parts_end_after_the_cursor(rt: HostRuntime) {
    let cursor = at_one(&rt, &[1, 2, 3, 4]);
    let mut part = part_of(&rt, &cursor, 2);
    are_equal(&rt, part.place(), 1);
    are_equal(&rt, part.u16(), Ok(0x0302));
    are_equal(&rt, part.u8(), Err(ReadFault::Short));
    are_equal(&rt, cursor.place(), 1);
}

/// A fork has the bytes and the offset of its cursor, and moves independently.
#[test]
fn forks_move_alone(rt: HostRuntime) {
    let mut cursor = at_one(&rt, &[1, 2, 3]);
    let mut fork = cursor.fork();
    are_equal(&rt, fork.place(), 1);
    are_equal(&rt, fork.u16(), Ok(0x0302));
    are_equal(&rt, cursor.place(), 1);
    are_equal(&rt, cursor.u8(), Ok(2));
    are_equal(&rt, fork.place(), 3);
}

/// The longest part, an empty one, and parts that extend past the end.
#[test]
fn parts_end_with_the_whole(rt: HostRuntime) {
    let cursor = at_one(&rt, &[1, 2, 3, 4]);
    let mut longest = part_of(&rt, &cursor, 3);
    are_equal(&rt, longest.u24(), Ok(0x0004_0302));
    let mut empty = part_of(&rt, &cursor, 0);
    are_equal(&rt, empty.u8(), Err(ReadFault::Short));
    are_equal(&rt, cursor.part(4).err(), Some(ReadFault::Short));
    are_equal(&rt, cursor.part(u64::MAX).err(), Some(ReadFault::Short));
}

/// Checks the result of a read of these bytes. The cursor must be at their end on success, and at
/// their start on a fault.
fn is_read<T: Copy + Debug + PartialEq>(
    rt: &impl Abort,
    bytes: &[u8],
    cursor: &Cursor,
    got: Result<T, ReadFault>,
    want: Result<T, ReadFault>,
) {
    are_equal(rt, (bytes, got), (bytes, want));
    let place = if got.is_ok() { bytes.len() } else { 0 };
    are_equal(rt, cursor.place(), place);
}

#[test]
fn reads_unsigned_leb128(rt: HostRuntime) {
    let table: [(&[u8], Result<u64, ReadFault>); 11] = [
        (&[0x02], Ok(2)),
        (&[0x7f], Ok(127)),
        (&[0x80, 0x01], Ok(128)),
        (&[0x80, 0x00], Ok(0)),
        (
            &[HIGH, HIGH, HIGH, HIGH, HIGH, HIGH, HIGH, HIGH, HIGH, 0x01],
            Ok(u64::MAX),
        ),
        (
            &[HIGH, HIGH, HIGH, HIGH, HIGH, HIGH, HIGH, HIGH, HIGH, 0x02],
            Err(ReadFault::Leb),
        ),
        (
            &[
                HIGH, HIGH, HIGH, HIGH, HIGH, HIGH, HIGH, HIGH, HIGH, HIGH, 0x00,
            ],
            Err(ReadFault::Leb),
        ),
        (
            &[HIGH, HIGH, HIGH, HIGH, HIGH, HIGH, HIGH, HIGH, HIGH],
            Err(ReadFault::Short),
        ),
        (
            &[HIGH, HIGH, HIGH, HIGH, HIGH, HIGH, HIGH, HIGH, 0x7f],
            Ok(0x7fff_ffff_ffff_ffff),
        ),
        (&[0x80], Err(ReadFault::Short)),
        (&[], Err(ReadFault::Short)),
    ];
    for (bytes, want) in table {
        let mut cursor = Cursor::new(bytes);
        let got = cursor.uleb();
        is_read(&rt, bytes, &cursor, got, want);
    }
}

#[test]
fn reads_signed_leb128(rt: HostRuntime) {
    let table: [(&[u8], Result<i64, ReadFault>); 12] = [
        (&[0x02], Ok(2)),
        (&[0x7e], Ok(-2)),
        (&[0x3f], Ok(63)),
        (&[0x40], Ok(-64)),
        (&[0x80, 0x7f], Ok(-128)),
        (&[0xe2, 0x00], Ok(98)),
        (&[HIGH, 0x00], Ok(127)),
        (
            &[0x80, 0x80, 0x80, 0x80, 0x80, 0x80, 0x80, 0x80, 0x80, 0x7f],
            Ok(i64::MIN),
        ),
        (
            &[HIGH, HIGH, HIGH, HIGH, HIGH, HIGH, HIGH, HIGH, HIGH, 0x00],
            Ok(i64::MAX),
        ),
        (
            &[HIGH, HIGH, HIGH, HIGH, HIGH, HIGH, HIGH, HIGH, HIGH, 0x01],
            Err(ReadFault::Leb),
        ),
        (
            &[0x80, 0x80, 0x80, 0x80, 0x80, 0x80, 0x80, 0x80, 0x80, 0x7e],
            Err(ReadFault::Leb),
        ),
        (
            &[0x80, 0x80, 0x80, 0x80, 0x80, 0x80, 0x80, 0x80, 0x80, 0x80],
            Err(ReadFault::Leb),
        ),
    ];
    for (bytes, want) in table {
        let mut cursor = Cursor::new(bytes);
        let got = cursor.sleb();
        is_read(&rt, bytes, &cursor, got, want);
    }
}

#[test]
fn reads_texts(rt: HostRuntime) {
    let mut cursor = Cursor::new(b"ab\0c\0d");
    are_equal(&rt, cursor.cstr(), Ok(b"ab".as_slice()));
    are_equal(&rt, cursor.cstr(), Ok(b"c".as_slice()));
    are_equal(&rt, cursor.cstr(), Err(ReadFault::Unterminated));
    are_equal(&rt, cursor.place(), 5);
}

#[test]
fn finds_texts(rt: HostRuntime) {
    let texts: [(u64, Result<&[u8], ReadFault>); 5] = [
        (1, Ok(b"b")),
        (2, Ok(b"")),
        (5, Err(ReadFault::Unterminated)),
        (6, Err(ReadFault::Unterminated)),
        (u64::MAX, Err(ReadFault::Unterminated)),
    ];
    for (place, text) in texts {
        are_equal(&rt, text_at(b"ab\0c\0d", place), text);
    }
}

#[test]
fn reads_initial_lengths(rt: HostRuntime) {
    let table: [(&[u8], Result<(Format, u64), ReadFault>); 7] = [
        (&[0x47, 0, 0, 0], Ok((Format::Dwarf32, 0x47))),
        (
            &[0xef, HIGH, HIGH, HIGH],
            Ok((Format::Dwarf32, 0xffff_ffef)),
        ),
        (&[0xf0, HIGH, HIGH, HIGH], Err(ReadFault::Length)),
        (&[0xfe, HIGH, HIGH, HIGH], Err(ReadFault::Length)),
        (
            &[HIGH, HIGH, HIGH, HIGH, 0x4b, 0, 0, 0, 0, 0, 0, 1],
            Ok((Format::Dwarf64, 0x0100_0000_0000_004b)),
        ),
        (
            &[HIGH, HIGH, HIGH, HIGH, 0x4b, 0, 0, 0, 0, 0, 0],
            Err(ReadFault::Short),
        ),
        (&[0x47, 0, 0], Err(ReadFault::Short)),
    ];
    for (bytes, want) in table {
        let mut cursor = Cursor::new(bytes);
        let got = cursor.initial_length();
        are_equal(&rt, (bytes, got), (bytes, want));
        let past = match got {
            Ok((Format::Dwarf32, _)) => 4,
            Ok((Format::Dwarf64, _)) => 12,
            Err(_) => 0,
        };
        are_equal(&rt, cursor.place(), past);
    }
}

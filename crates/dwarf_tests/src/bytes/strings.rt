//! Strings of sections, and their ends.

use crate::checks::{are_equal, expect, put, put_many};
use dwarf_bytes::{ReadFault, Section, Span, Text, TextIndex, strings_end, text_at};
use std::process::Abort;
use std::test::*;

/// Returns `len` bytes `a`.
fn run(rt: &(impl Abort + AllocGlobal), len: usize) -> Vec<u8> {
    let mut bytes = Vec::new(rt.alloc());
    put_many(rt, &mut bytes, len, b"a");
    bytes
}

/// Returns the index of a section.
fn index_of<'a>(rt: &(impl Abort + AllocGlobal), section: &'a [u8]) -> TextIndex<'a> {
    expect(rt, TextIndex::of(rt.alloc(), section).ok(), "out of memory")
}

/// Checks the length of the string at an offset, both by the index and by a read of the section.
fn has_text(
    rt: &impl Abort,
    index: &TextIndex<'_>,
    section: &[u8],
    offset: u64,
    len: Option<usize>,
) {
    let text = index.text_at(offset);
    let actual = match text {
        Ok(text) => Ok(text.len()),
        Err(fault) => Err(fault),
    };
    let want = len.ok_or(ReadFault::Unterminated);
    are_equal(rt, (offset, actual), (offset, want));
    are_equal(rt, (offset, text), (offset, text_at(section, offset)));
}

/// Checks the lengths of the strings at these offsets.
fn has_texts(rt: &(impl Abort + AllocGlobal), section: &[u8], texts: &[(u64, Option<usize>)]) {
    let index = index_of(rt, section);
    for (offset, len) in texts {
        has_text(rt, &index, section, *offset, *len);
    }
}

/// Strings of 4,095 and 4,096 bytes, whose NULs are the last byte of a block and the first of one;
/// a string of one byte; and one without a NUL.
#[test]
fn ends_texts_at_the_ends_of_blocks(rt: HostRuntime) {
    let mut section = run(&rt, 4_095);
    put(&rt, &mut section, &[0]);
    put_many(&rt, &mut section, 4_096, b"a");
    put(&rt, &mut section, b"\0c\0d");
    let texts = [
        (0, Some(4_095)),
        (1, Some(4_094)),
        (4_094, Some(1)),
        (4_095, Some(0)),
        (4_096, Some(4_096)),
        (4_097, Some(4_095)),
        (8_191, Some(1)),
        (8_192, Some(0)),
        (8_193, Some(1)),
        (8_194, Some(0)),
        (8_195, None),
        (8_196, None),
        (8_197, None),
        (u64::MAX, None),
    ];
    has_texts(&rt, &section, &texts);
}

/// A string that extends over three blocks.
#[test]
fn ends_texts_past_their_block(rt: HostRuntime) {
    let mut section = run(&rt, 10_000);
    put(&rt, &mut section, b"\0bc\0d");
    let texts = [
        (0, Some(10_000)),
        (4_095, Some(5_905)),
        (4_096, Some(5_904)),
        (8_192, Some(1_808)),
        (9_999, Some(1)),
        (10_000, Some(0)),
        (10_001, Some(2)),
        (10_004, None),
    ];
    has_texts(&rt, &section, &texts);
    let index = index_of(&rt, &section);
    are_equal(&rt, index.text_at(10_001), Ok(b"bc".as_slice()));
}

#[test]
fn ends_no_text_without_a_nul(rt: HostRuntime) {
    has_texts(&rt, &[], &[(0, None), (1, None), (u64::MAX, None)]);
    has_texts(&rt, &[0], &[(0, Some(0)), (1, None)]);
    let section = run(&rt, 5_000);
    has_texts(&rt, &section, &[(0, None), (4_095, None), (4_096, None)]);
}

/// A span that extends past the end of the bytes is truncated.
#[test]
fn spans_are_of_any_bytes(rt: HostRuntime) {
    let bytes = b"abcd";
    let spans: [(usize, usize, &[u8]); 6] = [
        (1, 2, b"bc"),
        (0, 4, b"abcd"),
        (3, 2, b"d"),
        (4, 1, b""),
        (5, 0, b""),
        (usize::MAX, usize::MAX, b""),
    ];
    for (place, len, want) in spans {
        let text = Text {
            section: Section::DebugStr,
            span: Span { place, len },
        };
        are_equal(&rt, (text, text.span.of(bytes)), (text, want));
    }
}

/// The last NUL is the last byte, an inner byte, the only byte, or missing.
#[test]
fn strings_end_after_the_last_nul(rt: HostRuntime) {
    let ends: [(&[u8], usize); 5] = [
        (b"a\0bc\0", 5),
        (b"a\0b", 2),
        (b"\0", 1),
        (b"ab", 0),
        (b"", 0),
    ];
    for (section, end) in ends {
        are_equal(&rt, (section, strings_end(section)), (section, end));
    }
}

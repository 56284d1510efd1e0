//! Long strings, and offsets within them.

use crate::fixtures::*;
use dwarf_bytes::{Cause, Section, text_at};
use dwarf_entries::Sections;
use std::process::Abort;
use std::test::*;

/// A string of 10,000 bytes at offset 0, a string of 2 bytes at 10,001, and an unterminated one at
/// 10,004. Names refer to the start or the middle of each with strp.
#[test]
fn long_texts(rt: HostRuntime) {
    let mut texts = Vec::new(rt.alloc());
    put_copies(&rt, &mut texts, 0x61, 10_000);
    put(&rt, &mut texts, &[0, 0x62, 0x63, 0, 0x64]);
    let names: [(u32, Option<usize>); 11] = [
        (0, Some(10_000)),
        (1, Some(9_999)),
        (4_095, Some(5_905)),
        (4_096, Some(5_904)),
        (4_097, Some(5_903)),
        (8_192, Some(1_808)),
        (9_999, Some(1)),
        (10_000, Some(0)),
        (10_001, Some(2)),
        (10_003, Some(0)),
        (10_004, None),
    ];
    for (place, len) in names {
        is_text(&rt, &texts, place, len);
    }
}

/// Checks that a string of this length is at this offset of `.debug_str`, using the name of a
/// subprogram at offset 13.
fn is_text(rt: &(impl Abort + AllocGlobal), texts: &[u8], place: u32, len: Option<usize>) {
    let offset = place.to_le_bytes();
    let object = OneScope::new(rt, (&[], &[]), (&[0x03, 0x0e], &offset));
    let all = Sections {
        debug_str: texts,
        ..object.sections()
    };
    let wanted = match len {
        Some(_) => Ok(text(Section::DebugStr, place as usize)),
        None => Err(fault(Cause::String, 13)),
    };
    is_named_or_refused(rt, &all, wanted);
    are_equal(rt, len_at(texts, u64::from(place)), len);
}

/// Returns the length of the string at an offset, if it is terminated.
fn len_at(texts: &[u8], place: u64) -> Option<usize> {
    match text_at(texts, place) {
        Ok(text) => Some(text.len()),
        Err(_) => None,
    }
}

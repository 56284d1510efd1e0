//! Truncated versions of the first sample object.

use crate::fixtures::*;
use dwarf_bytes::{Cause, LoadFault, Section};
use dwarf_entries::{Scopes, Sections};
use dwarf_samples::inlined;
use std::process::Abort;
use std::test::*;

/// The fault of a truncated declaration in `.debug_abbrev`.
pub fn cut_at(at: u64) -> LoadFault {
    LoadFault {
        section: Section::DebugAbbrev,
        cause: Cause::Short,
        at,
    }
}

/// Returns the first `size` bytes.
fn start(bytes: &[u8], size: usize) -> &[u8] {
    bytes.get(..size).unwrap_or(&[])
}

/// Checks the fault of sections after one is truncated to this size.
fn is_cut(
    rt: &(impl Abort + AllocGlobal),
    size: usize,
    sections: &Sections<'_>,
    fault: Option<LoadFault>,
) {
    let actual = Scopes::read(rt.alloc(), sections).err();
    are_equal(rt, (size, actual), (size, fault));
}

/// `.debug_info` truncated to each size. An empty section has no unit, and any other size
/// truncates the unit.
#[test]
fn a_unit_past_the_end(rt: HostRuntime) {
    let sample = inlined();
    let whole = sections_of(&rt, &sample);
    are_equal(&rt, whole.debug_info.len(), 96);
    for size in 1..96 {
        let cut = sections(start(whole.debug_info, size), whole.debug_abbrev);
        is_cut(&rt, size, &cut, Some(fault(Cause::Short, 0)));
    }
    has_fault(&rt, &whole, None);
}

#[test]
fn no_unit(rt: HostRuntime) {
    let sample = inlined();
    let whole = sections_of(&rt, &sample);
    let read = scopes_of(&rt, &sections(&[], whole.debug_abbrev));
    let empty = (read.roots().is_empty(), read.scopes().is_empty());
    are_equal(&rt, empty, (true, true));
}

/// Returns the fault of the first object if the length of its unit is reduced to `size` bytes.
fn fault_of_a_unit_of(size: usize) -> Option<LoadFault> {
    Some(match size {
        // in the header
        0..=11 => fault(Cause::Short, 0),
        // a unit without entries
        12 => return None,
        // in the stmt_list or the low_pc of the root
        13..=24 => fault(Cause::Short, 12),
        // in the names of mid, leaf and main, whose NUL is missing
        26..=29 => fault(Cause::String, 25),
        31..=35 => fault(Cause::String, 30),
        37..=41 => fault(Cause::String, 36),
        // in the low_pc or the high_pc of main
        42..=53 => fault(Cause::Short, 36),
        // in the inlined subroutines
        55..=72 => fault(Cause::Short, 54),
        74..=91 => fault(Cause::Short, 73),
        // after an entry or a null entry, when a list of children is not terminated
        25 | 30 | 36 | 54 | 73 | 92..=95 => fault(Cause::TreeOpen, 0),
        _ => return None,
    })
}

#[test]
fn a_unit_of_each_length(rt: HostRuntime) {
    let sample = inlined();
    let whole = sections_of(&rt, &sample);
    let mut info = [0; 96];
    info.copy_from_slice(&inlined()[163..259]);
    for size in 4u8..97 {
        info[0] = size.saturating_sub(4);
        let unit = &info[..usize::from(size)];
        let cut = sections(unit, whole.debug_abbrev);
        is_cut(&rt, unit.len(), &cut, fault_of_a_unit_of(unit.len()));
    }
}

/// Returns the offset of the declaration that is truncated in a table of this size.
fn cut_declaration(size: usize) -> u64 {
    match size {
        0..=8 => 0,
        9..=19 => 9,
        20..=34 => 20,
        35..=41 => 35,
        _ => 42,
    }
}

#[test]
fn cut_abbreviation_tables(rt: HostRuntime) {
    let sample = inlined();
    let whole = sections_of(&rt, &sample);
    are_equal(&rt, whole.debug_abbrev.len(), 43);
    for size in 0..43 {
        let cut = sections(whole.debug_info, start(whole.debug_abbrev, size));
        is_cut(&rt, size, &cut, Some(cut_at(cut_declaration(size))));
    }
}

/// The declarations of a unit and of a block, both with children. The block has two unused
/// attributes, of one byte and of two.
const BLOCKS: [u8; 15] = [
    1, 0x11, 1, 0, 0, 2, 0x0b, 1, 0x0b, 0x0b, 0x38, 0x05, 0, 0, 0,
];

/// Truncated blocks: a block at offset 13 of each size, and a block after it that lacks one byte.
#[test]
fn cut_blocks(rt: HostRuntime) {
    let refused: [(&[u8], Cause, u64); 5] = [
        // the block at offset 13, without some or all of its three bytes
        (&[1, 2], Cause::Short, 13),
        (&[1, 2, 0], Cause::Short, 13),
        (&[1, 2, 0, 0], Cause::Short, 13),
        // the whole block, whose list of children is not terminated
        (&[1, 2, 0, 0, 0], Cause::TreeOpen, 0),
        // a block after it, at offset 17, that lacks one byte
        (&[1, 2, 0, 0, 0, 2, 0, 0], Cause::Short, 17),
    ];
    for (entries, cause, at) in refused {
        is_invalid_unit(&rt, entries, &BLOCKS, cause, at);
    }
    let info = unit(&rt, &[1, 2, 0, 0, 0, 2, 0, 0, 0, 0, 0, 0]);
    has_fault(&rt, &sections(&info, &BLOCKS), None);
}

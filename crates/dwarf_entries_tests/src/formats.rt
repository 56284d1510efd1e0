//! Units of the 64-bit format, alone and mixed with units of the 32-bit format.

use crate::fixtures::*;
use dwarf_bytes::{Cause, LoadFault, Section};
use dwarf_entries::{Range, Root, ScopeKind, Sections, TextOffset};
use dwarf_samples::inlined;
use std::process::Abort;
use std::test::*;

/// Returns the scopes of the first object. Its unit starts at offset `start`, after `before`
/// scopes. `first` and `last` are relative to the unit: the first subprogram and the second
/// inlined one.
fn rows(start: usize, before: usize, first: usize, last: usize) -> [Row; 5] {
    let first = start.saturating_add(first);
    let last = start.saturating_add(last);
    let at_leaf = first.saturating_add(5);
    let two = before.saturating_add(2);
    let end = before.saturating_add(5);
    let mid = text(Section::DebugInfo, first.saturating_add(1));
    let leaf = text(Section::DebugInfo, first.saturating_add(6));
    let main = text(Section::DebugInfo, first.saturating_add(12));
    let main_range = Some(range(0x1000, 0x1010));
    [
        subprogram(first, before.saturating_add(1), None, mid),
        subprogram(at_leaf, two, None, leaf),
        subprogram(first.saturating_add(11), end, main_range, main),
        inlined_row(last.saturating_sub(19), end, 0x100c, mid, 20),
        inlined_row(last, end, 0x1008, leaf, 5),
    ]
}

fn subprogram(offset: usize, end: usize, range: Option<Range>, name: Option<TextOffset>) -> Row {
    Row {
        kind: ScopeKind::Subprogram,
        offset,
        end,
        range,
        name,
        call: None,
    }
}

/// Returns a subroutine that is inlined at 0x1004 and called in file 1.
fn inlined_row(offset: usize, end: usize, to: u64, name: Option<TextOffset>, line: u64) -> Row {
    Row {
        kind: ScopeKind::Inlined,
        offset,
        end,
        range: Some(range(0x1004, to)),
        name,
        call: Some((1, line)),
    }
}

fn root_of(offset: usize, first: usize, past: usize) -> Root {
    Root {
        stmt_list: Some(0),
        ..root(offset, first, past)
    }
}

#[test]
fn a_unit_of_64_bits(rt: HostRuntime) {
    let table = &inlined()[120..163];
    let read = scopes_of(&rt, &sections(&unit_of_64_bits(), table));
    are_equal(&rt, read.roots(), [root_of(24, 0, 5)].as_slice());
    are_scopes(&rt, &read, Some(0), &rows(0, 0, 41, 89));
}

/// Both units use the same table, and references are relative to the first byte of their own unit.
#[test]
fn units_of_both_formats(rt: HostRuntime) {
    let sample = inlined();
    let object = sections_of(&rt, &sample);
    let mut info = Vec::new(rt.alloc());
    put(&rt, &mut info, object.debug_info);
    put(&rt, &mut info, &unit_of_64_bits());
    put(&rt, &mut info, object.debug_info);
    let read = scopes_of(&rt, &sections(&info, object.debug_abbrev));
    let roots = [root_of(12, 0, 5), root_of(120, 5, 10), root_of(220, 10, 15)];
    are_equal(&rt, read.roots(), roots.as_slice());
    let mut wanted = Vec::new(rt.alloc());
    put_rows(&rt, &mut wanted, rows(0, 0, 25, 73));
    put_rows(&rt, &mut wanted, rows(96, 5, 41, 89));
    put_rows(&rt, &mut wanted, rows(208, 10, 25, 73));
    are_scopes(&rt, &read, Some(0), &wanted);
}

/// Appends the scopes of a unit.
fn put_rows(rt: &impl Abort, wanted: &mut Vec<Row>, rows: [Row; 5]) {
    expect(rt, wanted.extend_from_slice(&rows).ok(), "out of memory");
}

#[test]
fn refused_lengths(rt: HostRuntime) {
    let table = &inlined()[120..163];
    for (place, byte, cause) in [
        // reserved, one byte too long, and beyond all sections
        (0, 0xf0, Cause::Length),
        (4, 0x65, Cause::Short),
        (11, 0x80, Cause::Short),
        (12, 4, Cause::Version),
        (14, 4, Cause::UnitType),
        (15, 4, Cause::AddressSize),
    ] {
        let mut info = unit_of_64_bits();
        info[place] = byte;
        is_refused(&rt, &sections(&info, table), cause, 0);
    }
}

/// Truncated units of the 64-bit format.
#[test]
fn cut_units(rt: HostRuntime) {
    let table = &inlined()[120..163];
    // without the last null entry
    let unit = unit_of_64_bits();
    let mut info = unit;
    info[4] = 0x63;
    let cut = info.get(..111).unwrap_or(&[]);
    is_refused(&rt, &sections(cut, table), Cause::TreeOpen, 0);
    // the escape of the 64-bit format followed by fewer than eight bytes, and a truncated unit
    for size in 1..24 {
        let cut = sections(&unit[..size], table);
        is_refused(&rt, &cut, Cause::Short, 0);
    }
}

/// Builds a unit of the 64-bit format with these entries. Its first entry is at offset 24.
fn wide_unit(rt: &(impl Abort + AllocGlobal), entries: &[u8]) -> Vec<u8> {
    let unit_length = u64::try_from(entries.len()).unwrap_or(0).saturating_add(12);
    let mut info = Vec::new(rt.alloc());
    put(rt, &mut info, &[0xff; 4]);
    put(rt, &mut info, &unit_length.to_le_bytes());
    put(rt, &mut info, &[5, 0, 1, 8, 0, 0, 0, 0, 0, 0, 0, 0]);
    put(rt, &mut info, entries);
    info
}

/// The strings `ab` at offset 0 and `c` at offset 3.
const TEXTS: [u8; 5] = [0x61, 0x62, 0, 0x63, 0];

/// A string offsets table with the offsets 3 and 0 in the 64-bit format, whose base is 16.
const WIDE_OFFSETS: [u8; 32] = [
    0xff, 0xff, 0xff, 0xff, 0x14, 0, 0, 0, 0, 0, 0, 0, 5, 0, 0, 0, 3, 0, 0, 0, 0, 0, 0, 0, 0, 0, 0,
    0, 0, 0, 0, 0,
];

/// A table with the same offsets in the 32-bit format, after eight other bytes. Its base is 16.
const SHORT_OFFSETS: [u8; 24] = [
    0, 0, 0, 0, 0, 0, 0, 0, 12, 0, 0, 0, 5, 0, 0, 0, 3, 0, 0, 0, 0, 0, 0, 0,
];

/// Checks the name of a subprogram, which is an index, in a 64-bit unit with this base.
fn is_indexed(
    rt: &(impl Abort + AllocGlobal),
    base: u8,
    index: u8,
    debug_str_offsets: &[u8],
    wanted: Result<Option<TextOffset>, LoadFault>,
) {
    // str_offsets_base as sec_offset, and name as strx1
    let table = declarations(rt, (&[0x72, 0x17], &[]), (&[0x03, 0x25], &[]));
    let info = wide_unit(rt, &[1, base, 0, 0, 0, 0, 0, 0, 0, 2, index, 0]);
    let all = Sections {
        debug_str: &TEXTS,
        debug_str_offsets,
        ..sections(&info, &table)
    };
    is_named_or_refused(rt, &all, wanted);
}

#[test]
fn names_by_index(rt: HostRuntime) {
    let c = text(Section::DebugStr, 3);
    let ab = text(Section::DebugStr, 0);
    is_indexed(&rt, 16, 0, &WIDE_OFFSETS, Ok(c));
    is_indexed(&rt, 16, 1, &WIDE_OFFSETS, Ok(ab));
    is_indexed(&rt, 16, 2, &WIDE_OFFSETS, Err(fault(Cause::Index, 33)));
    is_indexed(&rt, 8, 0, &WIDE_OFFSETS, Err(fault(Cause::Base, 24)));
    is_indexed(&rt, 33, 0, &WIDE_OFFSETS, Err(fault(Cause::Base, 24)));
    // a table of the other format
    is_indexed(&rt, 24, 0, &SHORT_OFFSETS, Err(fault(Cause::Length, 24)));
}

/// A unit of the 32-bit format that refers to a table of the 64-bit format.
#[test]
fn tables_of_the_other_format(rt: HostRuntime) {
    let table = declarations(&rt, (&[0x72, 0x17], &[]), (&[], &[]));
    let info = unit(&rt, &[1, 8, 0, 0, 0, 2, 0]);
    for (size, cause) in [(32, Cause::Length), (12, Cause::Length), (11, Cause::Short)] {
        let all = Sections {
            debug_str_offsets: &WIDE_OFFSETS[..size],
            ..sections(&info, &table)
        };
        is_refused(&rt, &all, cause, 12);
    }
}

/// A table of the addresses 0x1000 and 0x2000, whose base is 16.
const ADDRESSES: [u8; 32] = [
    0xff, 0xff, 0xff, 0xff, 20, 0, 0, 0, 0, 0, 0, 0, 5, 0, 8, 0, 0, 0x10, 0, 0, 0, 0, 0, 0, 0,
    0x20, 0, 0, 0, 0, 0, 0,
];

/// A table of one list, whose base is 20, and the list after its offset: startx_endx 0 and 1.
const LISTS: [u8; 32] = [
    0xff, 0xff, 0xff, 0xff, 20, 0, 0, 0, 0, 0, 0, 0, 5, 0, 8, 0, 1, 0, 0, 0, 8, 0, 0, 0, 0, 0, 0,
    0, 2, 0, 1, 0,
];

/// Returns a root with addr_base and rnglists_base, and a scope that refers to a list by index.
fn entries_by_index(addr_base: u8, rnglists_base: u8, index: u8) -> [u8; 20] {
    let mut entries = [0; 20];
    entries[0] = 1;
    entries[1] = addr_base;
    entries[9] = rnglists_base;
    entries[17] = 2;
    entries[18] = index;
    entries
}

/// Checks the ranges of a scope, given the bases of tables in the 64-bit format and a list index.
fn is_list(
    rt: &(impl Abort + AllocGlobal),
    bases: (u8, u8),
    index: u8,
    wanted: Result<&[Range], LoadFault>,
) {
    // addr_base and rnglists_base as sec_offset, and ranges as rnglistx
    let root: Attributes<'_> = (&[0x73, 0x17, 0x74, 0x17], &[]);
    let table = declarations(rt, root, (&[0x55, 0x23], &[]));
    let info = wide_unit(rt, &entries_by_index(bases.0, bases.1, index));
    let all = Sections {
        debug_addr: &ADDRESSES,
        debug_rnglists: &LISTS,
        ..sections(&info, &table)
    };
    covers_or_is_refused(rt, &all, wanted);
}

#[test]
fn addresses_and_lists_by_index(rt: HostRuntime) {
    is_list(&rt, (16, 20), 0, Ok(&[range(0x1000, 0x2000)]));
    is_list(&rt, (16, 20), 1, Err(fault(Cause::Index, 41)));
    is_list(&rt, (8, 20), 0, Err(fault(Cause::Base, 24)));
    is_list(&rt, (16, 16), 0, Err(fault(Cause::Base, 24)));
}

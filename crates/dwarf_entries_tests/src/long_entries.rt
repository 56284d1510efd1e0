//! Long entries that are the target of several references.

use crate::fixtures::*;
use dwarf_bytes::Section;
use dwarf_entries::TextOffset;
use std::process::Abort;
use std::test::*;

/// Appends a string that repeats one letter.
fn add_letters(rt: &impl Abort, entries: &mut Vec<u8>, letter: u8, count: usize) {
    put_copies(rt, entries, letter, count);
    put(rt, entries, &[0]);
}

/// Builds the entries of the first unit, which ends at offset 336: an entry of 302 bytes is at
/// offset 13, with a name of 300 letters at 14.
fn first_entries(rt: &(impl Abort + AllocGlobal)) -> Vec<u8> {
    let mut entries = Vec::new(rt.alloc());
    put(rt, &mut entries, &[1, 2]);
    add_letters(rt, &mut entries, 0x61, 300);
    // at 315 and 320, to 13 of the unit; at 325 and 330, to 13 and 349 of the section
    put(rt, &mut entries, &[3, 13, 0, 0, 0, 3, 13, 0, 0, 0]);
    put(rt, &mut entries, &[4, 13, 0, 0, 0, 4, 0x5d, 1, 0, 0, 0]);
    entries
}

/// Builds the entries of the second unit: an entry of 282 bytes is at offset 349, with a name of
/// 280 letters at 350. An entry of 276 bytes at 651 refers to the entry at 349.
fn second_entries(rt: &(impl Abort + AllocGlobal)) -> Vec<u8> {
    let mut entries = Vec::new(rt.alloc());
    put(rt, &mut entries, &[1, 2]);
    add_letters(rt, &mut entries, 0x62, 280);
    // at 631, to 13 of the unit, which is 349; at 636, to 13 of the section; at 641 and 646, the
    // same
    put(rt, &mut entries, &[3, 13, 0, 0, 0, 4, 13, 0, 0, 0]);
    put(rt, &mut entries, &[3, 13, 0, 0, 0, 4, 13, 0, 0, 0]);
    // at 651, to 349 of the section
    put(rt, &mut entries, &[5]);
    add_letters(rt, &mut entries, 0x63, 270);
    put(rt, &mut entries, &[0x5d, 1, 0, 0]);
    // at 927 and 932, to 315 of the unit, which is 651
    put(rt, &mut entries, &[3, 0x3b, 1, 0, 0, 3, 0x3b, 1, 0, 0, 0]);
    entries
}

/// Returns the declarations of their entries. Long entries have this tag.
fn table_of(tag: u8) -> [u8; 36] {
    [
        1, 0x11, 1, 0, 0, // unit
        2, tag, 0, 0x03, 0x08, 0, 0, // name as string
        3, 0x2e, 0, 0x31, 0x13, 0, 0, // subprogram: abstract_origin as ref4
        4, 0x2e, 0, 0x47, 0x10, 0, 0, // subprogram: specification as ref_addr
        5, tag, 0, 0x25, 0x08, 0x31, 0x10, 0, 0, // producer as string, abstract_origin as ref_addr
        0,
    ]
}

/// Checks the names of the scopes of both units if long entries have this tag.
fn are_named(rt: &(impl Abort + AllocGlobal), tag: u8, names: &[Option<TextOffset>]) {
    let first = first_entries(rt);
    let second = second_entries(rt);
    let info = units_of(rt, &[(1, 0, &first), (1, 0, &second)]);
    are_equal(rt, info.len(), 938);
    let read = scopes_of(rt, &sections(&info, &table_of(tag)));
    have_names(rt, &read, names);
}

#[test]
fn long_entries_are_returned_each_time(rt: HostRuntime) {
    let first = text(Section::DebugInfo, 14);
    let second = text(Section::DebugInfo, 350);
    let names = [
        first, first, first, first, second, // those of the first unit
        second, second, first, second, first, second, second, second,
    ];
    are_named(&rt, 0x2e, &names);
}

/// The long entries are not scopes themselves.
#[test]
fn long_entries_out_of_the_scopes(rt: HostRuntime) {
    let first = text(Section::DebugInfo, 14);
    let second = text(Section::DebugInfo, 350);
    let names = [
        first, first, first, second, // those of the first unit
        second, first, second, first, second, second,
    ];
    are_named(&rt, 0x3b, &names);
}

//! Truncated objects: whole files, and sections with reduced sizes.

use crate::checks::{are_equal, copy};
use addr_table::Module;
use dwarf_bytes::{Cause, LoadFault, Section};
use dwarf_samples::{inlined, two_sequences};
use std::process::Abort;
use std::test::*;

/// The offsets of the section sizes in the section headers of the first sample.
const ABBREV_SIZE: usize = 479;

const INFO_SIZE: usize = 543;

const LINE_SIZE: usize = 607;

const NAMES_SIZE: usize = 671;

/// Returns the first fault of an object.
fn fault_of(rt: &(impl Abort + AllocGlobal), object: &[u8]) -> Option<LoadFault> {
    match Module::decode(rt.alloc(), copy(rt, object)) {
        Ok(_) => None,
        Err((_, fault)) => Some(fault),
    }
}

/// Returns the first sample with another size of a section.
fn with_size(place: usize, size: u8) -> [u8; 703] {
    let mut object = inlined();
    if let Some(byte) = object.get_mut(place) {
        *byte = size;
    }
    object
}

/// Checks that the first sample is refused with `fault` for each size of a section.
fn are_refused(rt: &(impl Abort + AllocGlobal), place: usize, sizes: (u8, u8), fault: LoadFault) {
    for size in sizes.0..sizes.1 {
        let found = fault_of(rt, &with_size(place, size));
        are_equal(rt, (size, found), (size, Some(fault)));
    }
}

#[test]
fn files_that_end_in_their_header(rt: HostRuntime) {
    let fault = Some(LoadFault::at_item(Section::Elf, Cause::NotElf, 0));
    for size in 0..64 {
        are_equal(
            &rt,
            (size, fault_of(&rt, &inlined()[..size])),
            (size, fault),
        );
    }
}

#[test]
fn files_that_end_before_their_section_headers(rt: HostRuntime) {
    let fault = Some(LoadFault::at_item(Section::Elf, Cause::Table, 0));
    for size in 64..703 {
        are_equal(
            &rt,
            (size, fault_of(&rt, &inlined()[..size])),
            (size, fault),
        );
    }
}

#[test]
fn longer_files_that_end_before_their_section_headers(rt: HostRuntime) {
    let fault = Some(LoadFault::at_item(Section::Elf, Cause::Table, 0));
    for size in 64..725 {
        are_equal(
            &rt,
            (size, fault_of(&rt, &two_sequences()[..size])),
            (size, fault),
        );
    }
}

#[test]
fn cut_line_programs(rt: HostRuntime) {
    let none = LoadFault::at_item(Section::DebugInfo, Cause::StmtList, 12);
    are_refused(&rt, LINE_SIZE, (0, 1), none);
    let fault = LoadFault::at_item(Section::DebugLine, Cause::Short, 0);
    are_refused(&rt, LINE_SIZE, (1, 75), fault);
}

#[test]
fn cut_units(rt: HostRuntime) {
    are_equal(&rt, fault_of(&rt, &with_size(INFO_SIZE, 0)), None);
    let fault = LoadFault::at_item(Section::DebugInfo, Cause::Short, 0);
    are_refused(&rt, INFO_SIZE, (1, 96), fault);
}

/// The declarations are at offsets 0, 9, 20 and 35, and the end of the table is at 42.
#[test]
fn cut_abbreviations_of_a_module(rt: HostRuntime) {
    for at in [0u8, 9, 20, 35, 42] {
        let fault = LoadFault::at_item(Section::DebugAbbrev, Cause::Short, at as u64);
        are_refused(&rt, ABBREV_SIZE, (at, end_of_declaration(at)), fault);
    }
}

/// Returns the offset of the next item of the abbreviation table.
fn end_of_declaration(at: u8) -> u8 {
    match at {
        0 => 9,
        9 => 20,
        20 => 35,
        35 => 42,
        _ => 43,
    }
}

/// Names start at offsets 1, 15, 27 and 39, and headers have 64 bytes.
#[test]
fn cut_names_of_sections(rt: HostRuntime) {
    let names = [
        (0, 1, 383),
        (1, 15, 447),
        (15, 27, 511),
        (27, 39, 575),
        (39, 49, 639),
    ];
    for (from, past, header) in names {
        let fault = LoadFault::at_item(Section::Elf, Cause::Table, header);
        are_refused(&rt, NAMES_SIZE, (from, past), fault);
    }
}

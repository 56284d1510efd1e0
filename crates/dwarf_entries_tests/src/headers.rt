//! Unit headers, and the offsets that they contain.

use crate::fixtures::*;
use crate::units::{TREES, bare};
use dwarf_bytes::{Cause, LoadFault, Section};
use std::test::*;

#[test]
fn types_of_units(rt: HostRuntime) {
    // a type unit that ends after its type
    let mut info = Vec::new(rt.alloc());
    put(&rt, &mut info, &[3, 0, 0, 0, 5, 0, 2]);
    // a type unit with bytes that are not read
    add_unit(&rt, &mut info, 2, 0xff, &[0xff, 0xff]);
    // a partial unit at offset 21
    add_unit(&rt, &mut info, 3, 0, &[2]);
    let read = scopes_of(&rt, &sections(&info, &TREES));
    are_equal(&rt, read.roots(), [root(33, 0, 1)].as_slice());
    are_scopes(&rt, &read, None, &[bare(33, 1)]);
}

#[test]
fn refused_types_of_units(rt: HostRuntime) {
    let refused = Some(fault(Cause::UnitType, 13));
    for unit_type in [0, 4, 5, 6, 0x80, 0xff] {
        have_fault(&rt, &[(1, 0, &[2]), (unit_type, 0, &[2])], &TREES, refused);
    }
}

#[test]
fn refused_headers(rt: HostRuntime) {
    let good = [9, 0, 0, 0, 5, 0, 1, 8, 0, 0, 0, 0, 2];
    for (place, byte, cause) in [
        (0, 10, Cause::Short), // past the section
        (0, 7, Cause::Short), // inside the offset of the abbreviations
        (4, 4, Cause::Version),
        (5, 1, Cause::Version),
        (6, 4, Cause::UnitType),
        (7, 4, Cause::AddressSize),
    ] {
        let mut info = good;
        info[place] = byte;
        is_refused(&rt, &sections(&info, &TREES), cause, 0);
    }
    let reserved = [0xf0, 0xff, 0xff, 0xff, 5, 0, 1, 8, 0, 0, 0, 0, 2];
    is_refused(&rt, &sections(&reserved, &TREES), Cause::Length, 0);
}

/// A byte after the unit is a truncated unit.
#[test]
fn a_byte_after_a_unit(rt: HostRuntime) {
    let mut info = unit(&rt, &[2]);
    put(&rt, &mut info, &[0]);
    is_refused(&rt, &sections(&info, &TREES), Cause::Short, 13);
}

#[test]
fn abbreviations_outside_their_section(rt: HostRuntime) {
    for offset in [31, 32, 0xff] {
        let fault = LoadFault {
            section: Section::DebugAbbrev,
            cause: Cause::Short,
            at: u64::from(offset),
        };
        have_fault(&rt, &[(1, offset, &[2])], &TREES, Some(fault));
    }
}

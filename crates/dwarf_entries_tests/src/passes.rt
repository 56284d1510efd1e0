//! The order in which the faults of several units are reported.

use crate::fixtures::*;
use dwarf_bytes::{Cause, LoadFault, Section};
use std::process::Abort;
use std::test::*;

/// The declarations of the units below, and at offset 38 a table with an invalid declaration.
const TABLES: [u8; 44] = [
    1, 0x11, 0, 0, 0, // compilation unit
    2, 0x11, 0, 0x73, 0x17, 0, 0, // compilation unit: addr_base as sec_offset
    3, 0x2e, 0, 0x31, 0x13, 0, 0, // subprogram: abstract_origin as ref4
    4, 0x2e, 0, 0x12, 0x0b, 0, 0, // subprogram: high_pc as data1
    5, 0x11, 1, 0, 0, // compilation unit with children
    6, 0x2e, 0, 0, 0, // subprogram
    0, 0, // end of an empty table, at 37
    1, 0x11, 2, 0, 0, 0,
];

/// A unit with one fault: its type, the offset of its abbreviations, its entries, and the fault
/// with its offset in the unit.
#[derive(Clone, Copy)]
struct Bad<'a> {
    unit_type: u8,
    abbreviations: u8,
    entries: &'a [u8],
    cause: Cause,
    at: u64,
}

impl<'a> Bad<'a> {
    fn unit(self) -> Unit<'a> {
        (self.unit_type, self.abbreviations, self.entries)
    }

    /// Returns the size of the unit in bytes.
    fn len(self) -> u64 {
        (self.entries.len() as u64).saturating_add(12)
    }

    /// Returns the fault of the unit if it starts at this offset.
    fn fault(self, start: u64) -> LoadFault {
        if self.cause == Cause::Children {
            return LoadFault {
                section: Section::DebugAbbrev,
                cause: self.cause,
                at: self.at,
            };
        }
        fault(self.cause, start.saturating_add(self.at))
    }
}

/// Units with a fault of each pass: of the header, the abbreviations, the entries, the tables of
/// the root, and the scopes.
const FAULTS: [Bad<'static>; 5] = [
    Bad {
        unit_type: 4,
        abbreviations: 0,
        entries: &[1],
        cause: Cause::UnitType,
        at: 0,
    },
    Bad {
        unit_type: 1,
        abbreviations: 38,
        entries: &[1],
        cause: Cause::Children,
        at: 38,
    },
    Bad {
        unit_type: 1,
        abbreviations: 0,
        entries: &[9],
        cause: Cause::AbbrevCode,
        at: 12,
    },
    Bad {
        unit_type: 1,
        abbreviations: 0,
        entries: &[2, 0, 0, 0, 0],
        cause: Cause::Base,
        at: 12,
    },
    Bad {
        unit_type: 1,
        abbreviations: 0,
        entries: &[3, 0, 0, 0, 0],
        cause: Cause::Reference,
        at: 12,
    },
];

/// If two units have faults, the fault of the earlier pass is reported. If both are of the same
/// pass, the fault of the first unit is reported.
#[test]
fn faults_of_two_units(rt: HostRuntime) {
    for (pass, first) in FAULTS.iter().enumerate() {
        is_before_each(&rt, pass, *first);
    }
}

/// Checks the fault of this unit, whose fault is of this pass, and each other unit after it.
fn is_before_each(rt: &(impl Abort + AllocGlobal), pass: usize, first: Bad<'_>) {
    for (second_pass, second) in FAULTS.iter().enumerate() {
        let wanted = if pass <= second_pass {
            first.fault(0)
        } else {
            second.fault(first.len())
        };
        have_fault(rt, &[first.unit(), second.unit()], &TABLES, Some(wanted));
    }
}

/// A valid unit before or after an invalid one does not hide the fault.
#[test]
fn one_invalid_unit_refuses_all(rt: HostRuntime) {
    let good: Unit<'_> = (1, 0, &[5, 6, 0]);
    for bad in FAULTS {
        have_fault(&rt, &[good, bad.unit()], &TABLES, Some(bad.fault(15)));
        have_fault(&rt, &[bad.unit(), good], &TABLES, Some(bad.fault(0)));
    }
}

/// In the pass over scopes, the names of the first scope are resolved before its ranges, and its
/// ranges before the names of the next scope.
#[test]
fn faults_of_two_scopes(rt: HostRuntime) {
    let first = [5, 4, 1, 3, 0, 0, 0, 0, 0];
    is_invalid_unit(&rt, &first, &TABLES, Cause::PcAndRanges, 13);
    let second = [5, 3, 0, 0, 0, 0, 4, 1, 0];
    is_invalid_unit(&rt, &second, &TABLES, Cause::Reference, 13);
}

/// The abbreviations of a unit without entries are validated. An empty table contains no code.
#[test]
fn tables_of_each_unit(rt: HostRuntime) {
    have_fault(&rt, &[(1, 37, &[])], &TABLES, None);
    let fault_of_table = LoadFault {
        section: Section::DebugAbbrev,
        cause: Cause::Children,
        at: 38,
    };
    have_fault(&rt, &[(1, 38, &[])], &TABLES, Some(fault_of_table));
    let no_code = Some(fault(Cause::AbbrevCode, 12));
    have_fault(&rt, &[(1, 37, &[1])], &TABLES, no_code);
}

/// A unit without entries has no root.
#[test]
fn no_entries(rt: HostRuntime) {
    let info = units_of(&rt, &[(1, 37, &[])]);
    let read = scopes_of(&rt, &sections(&info, &TABLES));
    are_equal(&rt, read.roots().is_empty(), true);
}

//! Abbreviation tables that units name, valid or not.

use crate::fixtures::*;
use dwarf_bytes::Format;
use dwarf_forms::Abbrevs;
use dwarf_samples::inlined;
use dwarf_units::{Tables, UnitHeader, UnitType};
use std::process::Abort;
use std::test::*;

/// Returns the header of a unit without entries whose table is at an offset.
fn header(abbreviations: u64) -> UnitHeader {
    UnitHeader {
        start: 0,
        format: Format::Dwarf32,
        unit_type: UnitType::Compile,
        abbreviations,
        first: 12,
        end: 12,
    }
}

/// Validates the table at an offset, and checks that a reader of this table alone has the same
/// fault.
fn has_the_same_fault(rt: &(impl Abort + AllocGlobal), section: &[u8], offset: u64) {
    let mut left = 4_194_304;
    let alone = Abbrevs::read(rt.alloc(), section, offset, &mut left);
    let tables = Tables::validate(rt.alloc(), section, &[header(offset)]);
    are_equal(rt, tables.err(), alone.err());
}

#[test]
fn faults_at_each_offset(rt: HostRuntime) {
    let sections: [&[u8]; 4] = [
        // the sample's
        &inlined()[120..163],
        // a constant
        &[
            1, 9, 0, 3, 0x21, 0x7f, 0, 0, 2, 9, 1, 0, 0, 3, 9, 0, 0, 0, 0,
        ],
        // a repeated code
        &[1, 9, 0, 0, 0, 2, 9, 0, 0, 0, 1, 9, 0, 0, 0, 0],
        // a repeated attribute
        &[1, 9, 0, 3, 8, 4, 8, 3, 8, 0, 0, 0],
    ];
    for section in sections {
        for offset in 0..section.len() as u64 + 2 {
            has_the_same_fault(&rt, section, offset);
        }
    }
}

//! Segments, the calls of the sweep, and comparisons.

use crate::checks::{are_equal, expect};
use crate::table::fixtures::*;
use addr_table::{AddressTable, Module, Segment, Steps};
use dwarf_samples::inlined;
use std::process::Abort;
use std::test::*;

/// Checks a segment: its endpoints, and the indexes of its row and its scope.
fn is_segment(
    rt: &impl Abort,
    segment: Option<&Segment>,
    ends: (u64, u64),
    row: usize,
    scope: usize,
) {
    let segment = expect(rt, segment, "too few segments");
    are_equal(rt, (segment.from, segment.to), ends);
    let numbers = (segment.row.get(), segment.scope.get());
    are_equal(rt, numbers, (Some(row), Some(scope)));
}

#[test]
fn segments_of_inlined_subroutines(rt: HostRuntime) {
    let module = sample(&rt, &inlined());
    let list = module.segments().list();
    are_equal(&rt, list.len(), 4);
    is_segment(&rt, list.get(0), (0x1000, 0x1004), 0, 2);
    is_segment(&rt, list.get(1), (0x1004, 0x1008), 1, 4);
    is_segment(&rt, list.get(2), (0x1008, 0x100c), 1, 3);
    is_segment(&rt, list.get(3), (0x100c, 0x1010), 1, 2);
    // five ranges; chains of 1, 3, 2, 1 and 0 scopes at the five endpoints
    is_within(&rt, module.sweep_calls(), 10, 27);
}

#[test]
fn a_search_halves(rt: HostRuntime) {
    let module = sample(&rt, &inlined());
    for link in 0x1000..0x1010 {
        let mut steps = Steps {
            compares: 100,
            decoded: 7,
        };
        are_equal(&rt, module.find(link, &mut steps).is_some(), true);
        // four segments have three binary digits
        is_within(&rt, steps.compares, 102, 104);
        are_equal(&rt, steps.decoded, 7);
    }
}

#[test]
fn counts_stop_at_the_greatest_number(rt: HostRuntime) {
    let mut steps = Steps {
        compares: u64::MAX - 1,
        decoded: 3,
    };
    are_equal(&rt, steps.reached(5, 5), true);
    are_equal(&rt, steps.compares, u64::MAX);
    are_equal(&rt, steps.reached(4, 5), false);
    are_equal(&rt, (steps.compares, steps.decoded), (u64::MAX, 3));
    let module = sample(&rt, &inlined());
    are_equal(&rt, module.find(0x1004, &mut steps).is_some(), true);
    are_equal(&rt, module.scan().find(0x1004, &mut steps).is_some(), true);
    are_equal(&rt, (steps.compares, steps.decoded), (u64::MAX, 3));
}

/// A compilation unit, and a subprogram with low_pc and a high_pc of one byte.
const ABBREV: [u8; 17] = [
    1, 0x11, 1, 0, 0, // unit
    2, 0x2e, 0, 0x11, 0x01, 0x12, 0x0b, 0, 0, // subprogram: low_pc, high_pc
    0, 0, 0,
];

/// Builds a module of 2,000 contiguous subprograms of 16 bytes each, from 0x1000 on.
fn touching(rt: &(impl Abort + AllocGlobal)) -> Box<Module> {
    let mut entries = Vec::new(rt.alloc());
    put(rt, &mut entries, &[1]);
    for number in 0..2000u64 {
        put(rt, &mut entries, &[2]);
        let low = number.saturating_mul(16).saturating_add(0x1000);
        put(rt, &mut entries, &low.to_le_bytes());
        put(rt, &mut entries, &[16]);
    }
    put(rt, &mut entries, &[0]);
    let mut info = Vec::new(rt.alloc());
    add_unit(rt, &mut info, &entries);
    let parts = Parts {
        abbrev: &ABBREV,
        info: &info,
        line: &[],
        rnglists: &[],
    };
    module(rt, object(rt, parts))
}

#[test]
fn two_thousand_touching_subprograms(rt: HostRuntime) {
    let module = touching(&rt);
    are_equal(&rt, module.segments().list().len(), 2000);
    is_within(&rt, module.sweep_calls(), 4000, 10002);
    for number in 0..2000usize {
        let link = (number as u64).saturating_mul(16).saturating_add(0x100f);
        let mut steps = Steps::default();
        let place = module.find(link, &mut steps);
        are_equal(&rt, numbers(place), Some((None, Some(number))));
        is_within(&rt, steps.compares, 2, 12);
    }
    answers(&rt, &module, 0x1000, &[(None, None, 0)]);
}

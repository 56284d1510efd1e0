//! Ranges from low_pc and high_pc.

use crate::fixtures::*;
use crate::ranges::ADDRESSES;
use dwarf_bytes::Cause;
use dwarf_entries::{Range, Scopes, Sections};
use std::process::Abort;
use std::test::*;

/// The address 0x1000.
const LOW: [u8; 8] = [0, 0x10, 0, 0, 0, 0, 0, 0];

/// The address 0x1010.
const HIGH: [u8; 8] = [0x10, 0x10, 0, 0, 0, 0, 0, 0];

/// The second-highest address.
const BELOW_TOP: [u8; 8] = [0xfe, 0xff, 0xff, 0xff, 0xff, 0xff, 0xff, 0xff];

/// Checks the range of a subprogram at offset 17 with these attributes, in a unit with an address
/// table.
fn pair(
    rt: &(impl Abort + AllocGlobal),
    declared: &[u8],
    values: [&[u8]; 2],
    wanted: Result<Option<Range>, Cause>,
) {
    let root: Attributes<'_> = (&[0x73, 0x17], &[8, 0, 0, 0]);
    let mut both = Vec::new(rt.alloc());
    put(rt, &mut both, values[0]);
    put(rt, &mut both, values[1]);
    let object = OneScope::new(rt, root, (declared, &both));
    let all = Sections {
        debug_addr: &ADDRESSES,
        ..object.sections()
    };
    match &wanted {
        Ok(range) => covers_or_is_refused(rt, &all, Ok(range.as_slice())),
        Err(cause) => is_refused(rt, &all, *cause, 17),
    }
}

#[test]
fn pairs(rt: HostRuntime) {
    let main = range(0x1000, 0x1010);
    let first = range(0x1000, 0x2000);
    let second = range(0x2000, 0x2090);
    let top = range(u64::MAX - 1, u64::MAX);
    let pairs: [(&[u8], [&[u8]; 2], Range); 9] = [
        // high_pc as a constant, which is relative to low_pc
        (&[0x11, 1, 0x12, 0x0b], [&LOW, &[0x10]], main),
        (&[0x11, 1, 0x12, 0x0d], [&LOW, &[0x10]], main),
        (&[0x11, 1, 0x12, 0x21, 0x10], [&LOW, &[]], main),
        // high_pc as an address
        (&[0x11, 1, 0x12, 1], [&LOW, &HIGH], main),
        (&[0x12, 1, 0x11, 1], [&HIGH, &LOW], main),
        // addresses by index
        (&[0x11, 0x29, 0x12, 0x29], [&[0], &[1]], first),
        (&[0x11, 0x1b, 0x12, 0x2a], [&[0], &[1, 0]], first),
        (&[0x11, 0x29, 0x12, 0x0f], [&[1], &[0x90, 1]], second),
        // up to the highest address
        (&[0x11, 1, 0x12, 0x0b], [&BELOW_TOP, &[1]], top),
    ];
    for (declared, values, range) in pairs {
        pair(&rt, declared, values, Ok(Some(range)));
    }
}

#[test]
fn pairs_that_cover_nothing(rt: HostRuntime) {
    let pairs: [(&[u8], [&[u8]; 2]); 6] = [
        // equal ends
        (&[0x11, 1, 0x12, 0x0b], [&LOW, &[0]]),
        (&[0x11, 1, 0x12, 1], [&LOW, &LOW]),
        (&[0x11, 1, 0x12, 1], [&BELOW_TOP, &BELOW_TOP]),
        // no high_pc: an index is not resolved
        (&[], [&[], &[]]),
        (&[0x11, 1], [&LOW, &[]]),
        (&[0x11, 0x1b], [&[9], &[]]),
    ];
    for (declared, values) in pairs {
        pair(&rt, declared, values, Ok(None));
    }
}

#[test]
fn faults_of_pairs(rt: HostRuntime) {
    let list = [0, 0, 0, 0];
    let pairs: [(&[u8], [&[u8]; 2], Cause); 9] = [
        (&[0x11, 1, 0x12, 0x0b], [&BELOW_TOP, &[2]], Cause::Overflow),
        (
            &[0x11, 1, 0x12, 1],
            [&LOW, &[0xff, 0x0f, 0, 0, 0, 0, 0, 0]],
            Cause::RangeBackwards,
        ),
        (&[0x11, 0x29, 0x12, 0x0b], [&[2], &[1]], Cause::Index),
        (&[0x11, 0x29, 0x12, 0x29], [&[0], &[2]], Cause::Index),
        // high_pc without low_pc, and ranges together with either
        (&[0x12, 0x0b], [&[1], &[]], Cause::PcAndRanges),
        (&[0x11, 1, 0x55, 0x17], [&LOW, &list], Cause::PcAndRanges),
        (&[0x12, 0x0b, 0x55, 0x17], [&[1], &list], Cause::PcAndRanges),
        (&[0x11, 0x29, 0x55, 0x17], [&[2], &list], Cause::PcAndRanges),
        // an invalid name, which is reported before the ranges
        (&[0x03, 0x0e, 0x12, 0x0b], [&list, &[1]], Cause::String),
    ];
    for (declared, values, cause) in pairs {
        pair(&rt, declared, values, Err(cause));
    }
}

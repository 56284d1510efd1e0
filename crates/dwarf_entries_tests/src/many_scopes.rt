//! More scopes, ranges and calls than fit into 16 bits.

use crate::fixtures::*;
use dwarf_bytes::Section;
use std::process::Abort;
use std::test::*;

/// A unit without attributes, a subprogram with a name, and a subprogram with low_pc as addr,
/// high_pc as data1, call_file as data8 and abstract_origin as ref4.
const TABLE: [u8; 29] = [
    1, 0x11, 1, 0, 0, 2, 0x2e, 0, 0x03, 0x08, 0, 0, 3, 0x2e, 0, 0x11, 0x01, 0x12, 0x0b, 0x58, 0x07,
    0x31, 0x13, 0, 0, 0, 0, 0, 0,
];

/// Builds the subprogram `f` at offset 13, and from offset 16 on `count` subprograms of 22 bytes,
/// whose origin it is. Each covers the 16 bytes after the previous one, from 0x1000 on. Each is
/// called in the next file, from 2^32 on.
fn unit_of_many(rt: &(impl Abort + AllocGlobal), count: u64) -> Vec<u8> {
    let mut entries = Vec::new(rt.alloc());
    put(rt, &mut entries, &[1, 2, b'f', 0]);
    for number in 0..count {
        put_scope(rt, &mut entries, number);
    }
    put(rt, &mut entries, &[0]);
    unit(rt, &entries)
}

/// Appends one of these subprograms.
fn put_scope(rt: &impl Abort, entries: &mut Vec<u8>, number: u64) {
    put(rt, entries, &[3]);
    let low_pc = number.saturating_mul(16).saturating_add(0x1000);
    put(rt, entries, &low_pc.to_le_bytes());
    put(rt, entries, &[16]);
    let call_file = number.saturating_add(0x1_0000_0000);
    put(rt, entries, &call_file.to_le_bytes());
    put(rt, entries, &[13, 0, 0, 0]);
}

#[test]
fn the_last_of_seventy_thousand_scopes(rt: HostRuntime) {
    let info = unit_of_many(&rt, 70_000);
    let read = scopes_of(&rt, &sections(&info, &TABLE));
    are_equal(&rt, read.scopes().len(), 70_001);
    let last = expect(&rt, read.scopes().last(), "no scope");
    let actual = (last.number(), last.offset(), last.end());
    are_equal(&rt, actual, (70_000, 1_539_994, 70_001));
    let covered = [range(1_124_080, 1_124_096)];
    are_equal(&rt, last.ranges(&read), covered.as_slice());
    are_equal(&rt, last.name(), text(Section::DebugInfo, 14));
    are_equal(&rt, call_of(&read, last), (Some(4_295_037_295), None));
}

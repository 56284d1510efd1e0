//! The table headers that precede the bases of a unit.

use crate::checks::are_equal;
use dwarf_bytes::{Cause, Format, TableHead, TableKind};

/// The offsets 3 and 0.
const OFFSETS: [u8; 16] = [12, 0, 0, 0, 5, 0, 0, 0, 3, 0, 0, 0, 0, 0, 0, 0];

/// The address 0x1000.
const ADDRESSES: [u8; 16] = [12, 0, 0, 0, 5, 0, 8, 0, 0, 0x10, 0, 0, 0, 0, 0, 0];

/// One offset, and the end of its list.
const LISTS: [u8; 17] = [13, 0, 0, 0, 5, 0, 8, 0, 1, 0, 0, 0, 4, 0, 0, 0, 0];

/// The offsets 3 and 0 in the 64-bit format.
const LONG_OFFSETS: [u8; 32] = [
    0xff, 0xff, 0xff, 0xff, 0x14, 0, 0, 0, 0, 0, 0, 0, 5, 0, 0, 0, 3, 0, 0, 0, 0, 0, 0, 0, 0, 0, 0,
    0, 0, 0, 0, 0,
];

fn before(section: &[u8], base: u64, kind: TableKind) -> Result<TableHead, Cause> {
    TableHead::before(section, base, kind, Format::Dwarf32)
}

#[test]
fn counts_the_items(rt: HostRuntime) {
    let two = TableHead { end: 16, items: 2 };
    let one = TableHead { end: 16, items: 1 };
    let list = TableHead { end: 17, items: 1 };
    are_equal(&rt, before(&OFFSETS, 8, TableKind::StrOffsets), Ok(two));
    are_equal(&rt, before(&ADDRESSES, 8, TableKind::Addr), Ok(one));
    are_equal(&rt, before(&LISTS, 12, TableKind::RngLists), Ok(list));
}

#[test]
fn refuses_a_base_outside(rt: HostRuntime) {
    for base in [0, 7, 17, u64::MAX] {
        are_equal(
            &rt,
            (base, before(&OFFSETS, base, TableKind::StrOffsets)),
            (base, Err(Cause::Base)),
        );
    }
    are_equal(
        &rt,
        before(&OFFSETS, 16, TableKind::StrOffsets),
        Err(Cause::Short),
    );
    are_equal(&rt, before(&[], 8, TableKind::Addr), Err(Cause::Base));
    are_equal(
        &rt,
        before(&LISTS, 11, TableKind::RngLists),
        Err(Cause::Base),
    );
}

#[test]
fn refuses_each_changed_field(rt: HostRuntime) {
    let table = [
        (3, 0xff, Cause::Short),
        (0, 7, Cause::Short),
        (0, 14, Cause::Short),
        (4, 4, Cause::Version),
        (6, 4, Cause::AddressSize),
        (7, 1, Cause::SegmentSize),
        (8, 2, Cause::Short),
    ];
    for (place, byte, cause) in table {
        let mut section = LISTS;
        section[place] = byte;
        are_equal(
            &rt,
            (place, before(&section, 12, TableKind::RngLists)),
            (place, Err(cause)),
        );
    }
    let mut reserved = LISTS;
    reserved[..4].copy_from_slice(&[0xff; 4]);
    are_equal(
        &rt,
        before(&reserved, 12, TableKind::RngLists),
        Err(Cause::Length),
    );
}

#[test]
fn passes_over_the_padding_of_offsets(rt: HostRuntime) {
    let mut section = OFFSETS;
    section[6] = 1;
    section[7] = 1;
    are_equal(
        &rt,
        before(&section, 8, TableKind::StrOffsets),
        Ok(TableHead { end: 16, items: 2 }),
    );
}

fn long_before(section: &[u8], base: u64) -> Result<TableHead, Cause> {
    TableHead::before(section, base, TableKind::StrOffsets, Format::Dwarf64)
}

#[test]
fn reads_tables_of_the_64_bit_format(rt: HostRuntime) {
    let two = TableHead { end: 32, items: 2 };
    are_equal(&rt, long_before(&LONG_OFFSETS, 16), Ok(two));
    are_equal(&rt, long_before(&LONG_OFFSETS, 8), Err(Cause::Base));
    are_equal(&rt, long_before(&OFFSETS, 16), Err(Cause::Length));
    let mut huge = LONG_OFFSETS;
    for place in 4..12 {
        huge[place] = 0xff;
    }
    are_equal(&rt, long_before(&huge, 16), Err(Cause::Short));
}

#[test]
fn reads_no_64_bit_length_in_the_32_bit_format(rt: HostRuntime) {
    let offsets = TableKind::StrOffsets;
    are_equal(&rt, before(&LONG_OFFSETS, 8, offsets), Err(Cause::Length));
    are_equal(
        &rt,
        before(&LONG_OFFSETS[..11], 8, offsets),
        Err(Cause::Short),
    );
}

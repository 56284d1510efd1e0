//! Tables that the bases of a root refer to, and indexes into them.

use crate::fixtures::*;
use crate::ranges::ADDRESSES;
use dwarf_bytes::{Cause, LoadFault};
use dwarf_entries::{Range, Sections};
use std::process::Abort;
use std::test::*;

/// A table of one range list, whose entries contain address indexes.
const INDEXED: [u8; 55] = [
    51, 0, 0, 0, 5, 0, 8, 0, 1, 0, 0, 0, // a table of one offset, whose base is 12
    4, 0, 0, 0, // its offset, so that the list is at 16
    1, 0, // base_addressx 0, which is 0x1000
    4, 1, 2, // offset_pair 1 to 2
    2, 0, 1, // startx_endx 0 and 1
    3, 1, 0x10, // startx_length 1, 0x10
    6, 0, 0x30, 0, 0, 0, 0, 0, 0, 1, 0x30, 0, 0, 0, 0, 0, 0, // start_end
    7, 0, 0x40, 0, 0, 0, 0, 0, 0, 0, // start_length 0x4000, 0
    0,
];

#[test]
fn lists_and_addresses_by_index(rt: HostRuntime) {
    let ranges = [
        range(0x1001, 0x1002),
        range(0x1000, 0x2000),
        range(0x2000, 0x2010),
        range(0x3000, 0x3001),
    ];
    is_list(&rt, 0, Ok(&ranges));
    is_list(&rt, 1, Err(fault(Cause::Index, 21)));
}

/// Checks the ranges of a subprogram at offset 21 that refers to a list by index.
fn is_list(rt: &(impl Abort + AllocGlobal), index: u8, wanted: Result<&[Range], LoadFault>) {
    // addr_base and rnglists_base, and ranges as rnglistx
    let root: Attributes<'_> = (&[0x73, 0x17, 0x74, 0x17], &[8, 0, 0, 0, 12, 0, 0, 0]);
    let object = OneScope::new(rt, root, (&[0x55, 0x23], &[index]));
    let all = Sections {
        debug_addr: &ADDRESSES,
        debug_rnglists: &INDEXED,
        ..object.sections()
    };
    covers_or_is_refused(rt, &all, wanted);
}

#[test]
fn an_index_without_a_base(rt: HostRuntime) {
    let object = OneScope::new(&rt, (&[], &[]), (&[0x55, 0x23], &[0]));
    let all = Sections {
        debug_rnglists: &INDEXED,
        ..object.sections()
    };
    is_refused(&rt, &all, Cause::Base, 13);
}

/// An index is out of range, and the operand after it is missing. The index is reported.
#[test]
fn an_index_past_the_table(rt: HostRuntime) {
    let root: Attributes<'_> = (&[0x73, 0x17], &[8, 0, 0, 0]);
    let object = OneScope::new(&rt, root, (&[0x55, 0x17], &[0, 0, 0, 0]));
    let all = Sections {
        debug_addr: &ADDRESSES,
        debug_rnglists: &[2, 2],
        ..object.sections()
    };
    is_refused(&rt, &all, Cause::Index, 17);
}

/// Headers of an address table with one byte changed, and the cause that is reported at the root
/// at offset 12.
#[test]
fn headers_of_addresses(rt: HostRuntime) {
    let changes = [
        // unit_length up to the base, up to one byte before it, beyond the section, reserved
        (0, 12, None),
        (0, 3, Some(Cause::Short)),
        (0, 21, Some(Cause::Short)),
        (3, 0xff, Some(Cause::Short)),
        // version, address_size, segment_selector_size
        (4, 4, Some(Cause::Version)),
        (6, 4, Some(Cause::AddressSize)),
        (7, 1, Some(Cause::SegmentSize)),
    ];
    // addr_base
    let root: Attributes<'_> = (&[0x73, 0x17], &[8, 0, 0, 0]);
    let object = OneScope::new(&rt, root, (&[], &[]));
    for (place, byte, cause) in changes {
        let mut addresses = ADDRESSES;
        addresses[place] = byte;
        let all = Sections {
            debug_addr: &addresses,
            ..object.sections()
        };
        has_fault(&rt, &all, fault_if(cause, 12));
    }
}

/// The low_pc of a root at offset 12 as addrx1: with an index out of range, and without a table.
#[test]
fn low_pc_of_no_address(rt: HostRuntime) {
    let indexed: [(&[u8], &[u8], Cause); 2] = [
        (&[0x73, 0x17, 0x11, 0x29], &[8, 0, 0, 0, 2], Cause::Index),
        (&[0x11, 0x29], &[0], Cause::Base),
    ];
    for (declared, values, cause) in indexed {
        is_invalid_root(&rt, (declared, values), cause);
    }
}

/// Checks that a root at offset 12 with these attributes is refused.
fn is_invalid_root(rt: &(impl Abort + AllocGlobal), root: Attributes<'_>, cause: Cause) {
    let object = OneScope::new(rt, root, (&[], &[]));
    let all = Sections {
        debug_addr: &ADDRESSES,
        ..object.sections()
    };
    is_refused(rt, &all, cause, 12);
}

/// The rnglists_base of a root at offset 12: the maximum number of offsets that fit into the
/// table, and one more.
#[test]
fn offsets_of_lists(rt: HostRuntime) {
    let root: Attributes<'_> = (&[0x74, 0x17], &[12, 0, 0, 0]);
    let object = OneScope::new(&rt, root, (&[], &[]));
    let mut lists = INDEXED;
    for (count, cause) in [(10, None), (11, Some(Cause::Short))] {
        lists[8] = count;
        let all = Sections {
            debug_rnglists: &lists,
            ..object.sections()
        };
        has_fault(&rt, &all, fault_if(cause, 12));
    }
}

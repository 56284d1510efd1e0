//! The messages of faults, and the numbers of causes.

use crate::checks::{are_equal, expect};
use dwarf_bytes::{Cause, LoadFault, ReadFault, Section};
use std::test::*;

#[test]
fn prints_read_faults(rt: HostRuntime) {
    let messages = [
        (ReadFault::Short, "short"),
        (ReadFault::Leb, "leb"),
        (ReadFault::Unterminated, "unterminated"),
        (ReadFault::Length, "length"),
    ];
    for (fault, message) in messages {
        let printed = expect(&rt, fault.to_string(rt.alloc()).ok(), "out of memory");
        are_equal(&rt, printed.as_str(), message);
    }
}

#[test]
fn prints_load_faults(rt: HostRuntime) {
    let fault = LoadFault::at_item(Section::DebugStrOffsets, Cause::PcAndRanges, 54);
    let text = expect(&rt, fault.to_string(rt.alloc()).ok(), "out of memory");
    are_equal(
        &rt,
        text.as_str(),
        "object .debug_str_offsets pc-and-ranges at 54",
    );
    let memory = LoadFault::at_item(Section::DebugInfo, Cause::Memory, 54);
    are_equal(&rt, (memory.section, memory.at), (Section::Elf, 0));
    are_equal(&rt, (Cause::NotElf as u8, Cause::RangeKind as u8), (1, 46));
}

//! What faults print.

use crate::checks::{are_equal, expect};
use dwarf_bytes::{Cause, LoadFault, Section};
use module_map::MapFault;
use std::process::Abort;
use std::test::*;

/// Checks what a fault prints.
fn prints(rt: &(impl Abort + AllocGlobal), fault: MapFault, message: &str) {
    let text = expect(rt, fault.to_string(rt.alloc()).ok(), "out of memory");
    are_equal(rt, text.as_str(), message);
}

#[test]
fn prints_map_faults(rt: HostRuntime) {
    let object = LoadFault::at_item(Section::DebugLine, Cause::FileFormat, 7);
    let messages = [
        (MapFault::NameTaken, "name-taken"),
        (MapFault::NoModule, "no-module"),
        (MapFault::Full, "full"),
        (
            MapFault::Object(object),
            "object .debug_line file-format at 7",
        ),
        (MapFault::Range, "range"),
        (MapFault::Overlap(3), "overlap"),
        (MapFault::Memory, "memory"),
    ];
    for (fault, message) in messages {
        prints(&rt, fault, message);
    }
}

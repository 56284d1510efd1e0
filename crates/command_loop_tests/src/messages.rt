//! What faults print.

use crate::checks::{are_equal, expect};
use command_loop::{BadLine, ExeFault, FetchFault, MapFault, RunFault};
use std::fmt::Display;
use std::process::Abort;
use std::test::*;

/// Checks the message of a fault.
fn is_printed(rt: &(impl Abort + AllocGlobal), fault: &impl Display, message: &str) {
    let text = expect(rt, fault.to_string(rt.alloc()).ok(), "out of memory");
    are_equal(rt, text.as_str(), message);
}

#[test]
fn prints_invalid_lines(rt: HostRuntime) {
    is_printed(&rt, &BadLine::LongLine, "long-line");
    is_printed(&rt, &BadLine::Command, "command");
    is_printed(&rt, &BadLine::Fields, "fields");
    is_printed(&rt, &BadLine::Name, "name");
    is_printed(&rt, &BadLine::Number, "number");
    is_printed(&rt, &BadLine::Path, "path");
}

#[test]
fn prints_run_faults(rt: HostRuntime) {
    is_printed(&rt, &RunFault::Reading, "reading failed");
    is_printed(&rt, &RunFault::Writing, "writing failed");
    is_printed(&rt, &RunFault::Memory, "no memory");
    let faults = [
        (ExeFault::NotFetched(FetchFault::File), "refused file"),
        (
            ExeFault::NotFetched(FetchFault::TooLarge),
            "refused too-large",
        ),
        (ExeFault::NotFetched(FetchFault::Memory), "refused memory"),
        (ExeFault::NotLoaded(MapFault::Range), "refused range"),
        (ExeFault::NotLoaded(MapFault::Memory), "refused memory"),
    ];
    for (fault, message) in faults {
        is_printed(&rt, &RunFault::Exe(fault), message);
    }
}

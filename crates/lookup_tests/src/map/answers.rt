//! Results of asks.

use crate::checks::{are_equal, expect};
use crate::map::fixtures::*;
use addr_table::Frame;
use dwarf_samples::{inlined, two_sequences};
use module_map::Asked;
use std::process::Abort;
use std::test::*;

#[test]
fn no_module_answers_nothing(rt: HostRuntime) {
    let mut modules = empty(&rt, 0);
    let asked = modules.ask(0x1004);
    are_equal(
        &rt,
        asked,
        Asked {
            address: 0x1004,
            found: None,
        },
    );
    are_equal(&rt, modules.answer(asked).address(), 0x1004);
    are_equal(&rt, modules.answer(asked).frames().next().is_none(), true);
    are_equal(&rt, modules.answer(asked).site().line, 0);
    are_equal(&rt, modules.steps().compares, 0);
}

/// Checks the name and the line of a frame.
fn is_frame(rt: &impl Abort, frame: Option<Frame<'_>>, name: &[u8], line: u64) {
    let frame = expect(rt, frame, "too few frames");
    are_equal(rt, (frame.name(), frame.line()), (Some(name), line));
}

#[test]
fn the_frames_of_a_link_address(rt: HostRuntime) {
    let mut modules = one(&rt, 0x10000, 0);
    let asked = modules.ask(0x11004);
    let answer = modules.answer(asked);
    are_equal(&rt, answer.address(), 0x11004);
    let mut frames = answer.frames();
    is_frame(&rt, frames.next(), b"leaf", 11);
    is_frame(&rt, frames.next(), b"mid", 5);
    is_frame(&rt, frames.next(), b"main", 20);
    are_equal(&rt, frames.next().is_none(), true);
    are_equal(&rt, answer.site().line, 11);
    are_equal(&rt, answer.site().path.is_some(), true);
}

#[test]
fn a_module_may_know_nothing_of_an_address(rt: HostRuntime) {
    let mut modules = one(&rt, 0x10000, 4);
    let asked = modules.ask(0x11010);
    let found = expect(&rt, asked.found, "no module");
    are_equal(&rt, (found.at, found.place), (0, None));
    are_equal(&rt, modules.answer(asked).frames().next().is_none(), true);
    // after the extent, and before it
    are_equal(&rt, modules.ask(0x12000).found, None);
    are_equal(&rt, modules.ask(0x10fff).found, None);
    are_equal(&rt, modules.ask(0x11fff).found.is_some(), true);
}

#[test]
fn each_of_two_modules_answers(rt: HostRuntime) {
    let mut modules = one(&rt, 0x10000, 4);
    load(&rt, &mut modules, "b", 0x11000, &two_sequences());
    are_equal(&rt, line(&mut modules, 0x11000), Some(10));
    are_equal(&rt, line(&mut modules, 0x12000), Some(12));
    are_equal(&rt, line(&mut modules, 0x11000), Some(10));
    let found = expect(&rt, modules.ask(0x12000).found, "no module");
    are_equal(&rt, found.at, 1);
}

#[test]
fn an_old_ask_is_answered_with_something(rt: HostRuntime) {
    let mut modules = one(&rt, 0x10000, 0);
    let asked = modules.ask(0x11004);
    unload(&rt, &mut modules, "a");
    are_equal(&rt, modules.answer(asked).frames().next().is_none(), true);
    load(&rt, &mut modules, "b", 0, &inlined());
    are_equal(&rt, modules.answer(asked).address(), 0x11004);
}

#[test]
fn one_module_takes_six_compares_at_most(rt: HostRuntime) {
    let mut modules = one(&rt, 0x10000, 0);
    are_equal(&rt, modules.steps().compares, 0);
    for address in 0x11000..0x11010 {
        modules.ask(address);
        takes_at_most(&rt, &modules, 6, address);
    }
}

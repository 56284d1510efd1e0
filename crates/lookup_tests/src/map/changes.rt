//! Loads, unloads and moves, and the reasons for refusing them.

use crate::checks::{are_equal, copy, expect};
use crate::map::fixtures::*;
use dwarf_bytes::{Cause, LoadFault, Section};
use dwarf_samples::{cut_abbreviations, inlined, two_sequences};
use module_map::{Extent, MapFault};
use std::test::*;

#[test]
fn a_name_is_taken_before_all_else(rt: HostRuntime) {
    let mut modules = one(&rt, 0x10000, 0);
    load_gives(&rt, &mut modules, "a", 0x30000, Err(MapFault::NameTaken));
    let bad = modules.load("a", 0x10000, Vec::new(rt.alloc()));
    are_equal(&rt, bad, Err(MapFault::NameTaken));
    // only the bytes of the first load
    are_equal(&rt, modules.steps().decoded, 703);
    lists(&rt, &modules, &[("a", 0x11000, 0x10000)]);
}

#[test]
fn an_object_with_a_fault(rt: HostRuntime) {
    let mut modules = one(&rt, 0x10000, 0);
    let fault = LoadFault {
        section: Section::DebugAbbrev,
        cause: Cause::Short,
        at: 0,
    };
    // it would also overlap the other one, but its fault is reported first
    let bad = modules.load("b", 0x10000, copy(&rt, &cut_abbreviations()));
    are_equal(&rt, bad, Err(MapFault::Object(fault)));
    lists(&rt, &modules, &[("a", 0x11000, 0x10000)]);
}

#[test]
fn the_greatest_address(rt: HostRuntime) {
    let mut modules = empty(&rt, 0);
    let past = Err(MapFault::Range);
    load_gives(&rt, &mut modules, "a", 0xffff_ffff_ffff_e000, past);
    let last = Ok(Extent {
        low: 0xffff_ffff_ffff_efff,
        high: u64::MAX,
    });
    load_gives(&rt, &mut modules, "a", 0xffff_ffff_ffff_dfff, last);
    move_gives(&rt, &mut modules, "a", 0xffff_ffff_ffff_e000, past);
    lists(
        &rt,
        &modules,
        &[("a", 0xffff_ffff_ffff_efff, 0xffff_ffff_ffff_dfff)],
    );
}

#[test]
fn an_overlap_names_the_lowest_module(rt: HostRuntime) {
    let mut modules = one(&rt, 0x30000, 0);
    load(&rt, &mut modules, "b", 0x20800, &inlined());
    load(&rt, &mut modules, "c", 0x1f000, &inlined());
    load(&rt, &mut modules, "d", 0x10000, &inlined());
    // overlaps c, at 0x20000 to 0x21000, and b, at 0x21800 to 0x22800
    load_gives(&rt, &mut modules, "e", 0x1ff00, Err(MapFault::Overlap(1)));
    let (name, _, _) = expect(&rt, modules.list().nth(1), "no module");
    are_equal(&rt, name, "c");
    load_gives(&rt, &mut modules, "e", 0x20000, Err(MapFault::Overlap(2)));
    lists(
        &rt,
        &modules,
        &[
            ("d", 0x11000, 0x10000),
            ("c", 0x20000, 0x1f000),
            ("b", 0x21800, 0x20800),
            ("a", 0x31000, 0x30000),
        ],
    );
}

#[test]
fn touching_is_no_overlap(rt: HostRuntime) {
    let mut modules = one(&rt, 0x10000, 0);
    load_gives(&rt, &mut modules, "b", 0x11000, from(0x12000));
    load_gives(&rt, &mut modules, "c", 0xf000, from(0x10000));
    move_gives(&rt, &mut modules, "a", 0x10001, Err(MapFault::Overlap(2)));
    move_gives(&rt, &mut modules, "a", 0xffff, Err(MapFault::Overlap(0)));
    lists(
        &rt,
        &modules,
        &[
            ("c", 0x10000, 0xf000),
            ("a", 0x11000, 0x10000),
            ("b", 0x12000, 0x11000),
        ],
    );
}

#[test]
fn a_move_does_not_meet_its_own_old_place(rt: HostRuntime) {
    let mut modules = one(&rt, 0x10000, 0);
    move_gives(&rt, &mut modules, "a", 0x10800, from(0x11800));
    are_equal(&rt, line(&mut modules, 0x11804), Some(11));
    are_equal(&rt, line(&mut modules, 0x11004), None);
    move_gives(&rt, &mut modules, "a", 0x10800, from(0x11800));
    are_equal(&rt, modules.steps().decoded, 703);
}

#[test]
fn a_move_past_others(rt: HostRuntime) {
    let mut modules = one(&rt, 0x10000, 0);
    load(&rt, &mut modules, "b", 0x20000, &inlined());
    load(&rt, &mut modules, "c", 0x30000, &two_sequences());
    move_gives(&rt, &mut modules, "a", 0x40000, from(0x41000));
    are_equal(&rt, line(&mut modules, 0x31000), Some(12));
    are_equal(&rt, line(&mut modules, 0x41000), Some(10));
    move_gives(&rt, &mut modules, "c", 0x10000, from(0x11000));
    are_equal(&rt, line(&mut modules, 0x11000), Some(12));
    lists(
        &rt,
        &modules,
        &[
            ("c", 0x11000, 0x10000),
            ("b", 0x21000, 0x20000),
            ("a", 0x41000, 0x40000),
        ],
    );
}

#[test]
fn names_that_are_not_there(rt: HostRuntime) {
    let mut modules = one(&rt, 0x10000, 0);
    are_equal(&rt, modules.unload("x"), Err(MapFault::NoModule));
    move_gives(&rt, &mut modules, "x", 0, Err(MapFault::NoModule));
    are_equal(&rt, modules.unload("a"), Ok(()));
    are_equal(&rt, modules.unload("a"), Err(MapFault::NoModule));
    lists(&rt, &modules, &[]);
}

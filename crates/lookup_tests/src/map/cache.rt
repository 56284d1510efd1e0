//! The contents of the cache. It changes no answer.

use crate::checks::are_equal;
use crate::map::fixtures::*;
use dwarf_samples::two_sequences;
use module_map::Modules;
use std::process::Abort;
use std::test::*;

/// Asks 16 addresses from `from` on, each with at most `most` comparisons.
fn ask_all(rt: &impl Abort, modules: &mut Modules, from: u64, most: u64) {
    for offset in 0..16 {
        let asked = modules.ask(from.saturating_add(offset));
        takes_at_most(rt, modules, most, offset);
        are_equal(rt, modules.answer(asked).frames().next().is_some(), true);
    }
}

#[test]
fn later_asks_take_two_compares(rt: HostRuntime) {
    let mut modules = one(&rt, 0x10000, 1024);
    are_equal(&rt, modules.cached(), (0, 1024));
    ask_all(&rt, &mut modules, 0x11000, 6);
    ask_all(&rt, &mut modules, 0x11000, 2);
    move_to(&rt, &mut modules, "a", 0x20000);
    ask_all(&rt, &mut modules, 0x21000, 2);
    are_equal(&rt, modules.cached(), (16, 1024));
}

#[test]
fn a_small_cache_stays_small(rt: HostRuntime) {
    let mut modules = one(&rt, 0x10000, 4);
    ask_all(&rt, &mut modules, 0x11000, 6);
    ask_all(&rt, &mut modules, 0x11000, 6);
    move_to(&rt, &mut modules, "a", 0x20000);
    ask_all(&rt, &mut modules, 0x21000, 6);
    are_equal(&rt, modules.cached(), (4, 4));
}

/// Returns the number of comparisons that it takes to look up an address.
fn compares(modules: &mut Modules, address: u64) -> u64 {
    modules.ask(address);
    modules.steps().compares
}

#[test]
fn a_full_cache_stores_every_fourth_answer(rt: HostRuntime) {
    let mut modules = one(&rt, 0x10000, 2);
    modules.ask(0x11000);
    modules.ask(0x11001);
    for _ in 0..4 {
        are_equal(&rt, compares(&mut modules, 0x11004) > 2, true);
    }
    are_equal(&rt, compares(&mut modules, 0x11004), 2);
    // it took the place of the one that was asked least recently
    are_equal(&rt, compares(&mut modules, 0x11001), 2);
    are_equal(&rt, compares(&mut modules, 0x11000) > 2, true);
}

/// Data is read for at most eight addresses, whether or not they have an answer.
#[test]
fn prefetch_caches_and_counts_nothing(rt: HostRuntime) {
    let mut modules = one(&rt, 0x10000, 4);
    modules.ask(0x11000);
    let compares = modules.steps().compares;
    let addresses = [
        0x11000, 0x11004, 0x11010, 0x12010, 0, 0x11008, 0x1100f, 0x11001, 0x11002,
    ];
    for count in 0..addresses.len() + 1 {
        modules.prefetch(&addresses[..count], true);
        modules.prefetch(&addresses[..count], false);
    }
    are_equal(&rt, modules.cached(), (1, 4));
    are_equal(&rt, modules.steps().compares, compares);
    are_equal(&rt, line(&mut modules, 0x11004), Some(11));
}

#[test]
fn no_cache(rt: HostRuntime) {
    let mut modules = one(&rt, 0x10000, 0);
    ask_all(&rt, &mut modules, 0x11000, 6);
    are_equal(&rt, modules.cached(), (0, 0));
    modules.ask(0x11004);
    are_equal(&rt, modules.steps().compares > 2, true);
}

#[test]
fn an_unknown_address_is_cached(rt: HostRuntime) {
    let mut modules = one(&rt, 0x10000, 4);
    are_equal(&rt, line(&mut modules, 0x11010), None);
    are_equal(&rt, modules.cached(), (1, 4));
    are_equal(&rt, line(&mut modules, 0x11010), None);
    are_equal(&rt, modules.steps().compares, 2);
    // no module contains this one
    are_equal(&rt, line(&mut modules, 0x12010), None);
    are_equal(&rt, modules.cached(), (1, 4));
}

#[test]
fn a_moved_module_answers_at_its_new_base(rt: HostRuntime) {
    let mut modules = one(&rt, 0x10000, 16);
    are_equal(&rt, line(&mut modules, 0x11004), Some(11));
    move_to(&rt, &mut modules, "a", 0x20000);
    are_equal(&rt, line(&mut modules, 0x11004), None);
    are_equal(&rt, line(&mut modules, 0x21004), Some(11));
    are_equal(&rt, line(&mut modules, 0x21000), Some(10));
}

#[test]
fn a_later_load_of_a_name_answers_for_itself(rt: HostRuntime) {
    let mut modules = one(&rt, 0x10000, 16);
    are_equal(&rt, line(&mut modules, 0x11000), Some(10));
    unload(&rt, &mut modules, "a");
    are_equal(&rt, modules.cached(), (1, 16));
    load(&rt, &mut modules, "a", 0x10000, &two_sequences());
    are_equal(&rt, modules.cached(), (1, 16));
    are_equal(&rt, line(&mut modules, 0x11000), Some(12));
    are_equal(&rt, modules.cached(), (2, 16));
}

#[test]
fn two_modules_of_one_object(rt: HostRuntime) {
    let mut modules = one(&rt, 0x10000, 16);
    load(&rt, &mut modules, "b", 0x20000, &two_sequences());
    are_equal(&rt, line(&mut modules, 0x11000), Some(10));
    are_equal(&rt, line(&mut modules, 0x21000), Some(12));
    are_equal(&rt, line(&mut modules, 0x11000), Some(10));
    are_equal(&rt, modules.cached(), (2, 16));
}

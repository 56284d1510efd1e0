//! The maximum number of modules.

use crate::checks::{are_equal, expect};
use crate::map::fixtures::*;
use dwarf_samples::inlined;
use module_map::{MapFault, Modules};
use std::process::Abort;
use std::test::*;

/// Loads the first sample under the name `mNUMBER`.
fn load_number(rt: &(impl Abort + AllocGlobal), modules: &mut Modules, number: u64) {
    let name = expect(
        rt,
        format!(in rt.alloc(); "m{number}").ok(),
        "out of memory",
    );
    let base = number.saturating_mul(0x1000);
    load(rt, modules, name.as_str(), base, &inlined());
}

/// Loads modules `m0` to `m4095` of the first sample, 0x1000 apart.
fn all(rt: &(impl Abort + AllocGlobal)) -> Box<Modules> {
    let mut modules = empty(rt, 0);
    for number in 0..4096u64 {
        load_number(rt, &mut modules, number);
    }
    modules
}

#[test]
fn one_more_is_refused(rt: HostRuntime) {
    let mut modules = all(&rt);
    let decoded = modules.steps().decoded;
    are_equal(&rt, decoded, 703 * 4096);
    load_gives(&rt, &mut modules, "more", 0x2000_0000, Err(MapFault::Full));
    let taken = Err(MapFault::NameTaken);
    load_gives(&rt, &mut modules, "m7", 0x2000_0000, taken);
    are_equal(&rt, modules.steps().decoded, decoded);
    are_equal(&rt, modules.list().count(), 4096);
    // after an unload one more can be loaded
    unload(&rt, &mut modules, "m9");
    load_gives(&rt, &mut modules, "more", 0x9000, from(0xa000));
}

/// Checks an ask for an address of the module `mNUMBER`.
fn is_answered(rt: &impl Abort, modules: &mut Modules, number: u64) {
    let start = number.saturating_mul(0x1000).saturating_add(0x1000);
    let asked = modules.ask(start.saturating_add(4));
    takes_at_most(rt, modules, 18, number);
    let found = expect(rt, asked.found, "no module");
    are_equal(rt, found.at as u64, number);
    are_equal(rt, found.place.is_some(), true);
}

#[test]
fn an_ask_takes_eighteen_compares_at_most(rt: HostRuntime) {
    let mut modules = all(&rt);
    for number in 0..4096u64 {
        is_answered(&rt, &mut modules, number);
    }
    are_equal(&rt, modules.ask(0xfff).found, None);
    are_equal(&rt, modules.ask(0x100_1000).found, None);
}

//! Modules for the tests, and checks of their answers.

use crate::checks::{are_equal, boxed, copy, expect};
use dwarf_samples::inlined;
use module_map::{Extent, MapFault, Modules};
use std::process::Abort;
use std::test::*;

/// Checks that the last ask took two to `most` comparisons. A failure prints `at`.
pub fn takes_at_most(rt: &impl Abort, modules: &Modules, most: u64, at: u64) {
    let compares = modules.steps().compares;
    let is_within = 2 <= compares && compares <= most;
    are_equal(rt, (compares, at, is_within), (compares, at, true));
}

/// Creates an empty list of modules with a cache of `cache_entries` answers.
pub fn empty(rt: &(impl Abort + AllocGlobal), cache_entries: usize) -> Box<Modules> {
    let modules = expect(
        rt,
        Modules::new(rt.alloc(), cache_entries).ok(),
        "out of memory",
    );
    boxed(rt, modules)
}

/// Loads an object. The load is not refused.
pub fn load(
    rt: &(impl Abort + AllocGlobal),
    modules: &mut Modules,
    name: &str,
    base: u64,
    object: &[u8],
) {
    expect(
        rt,
        modules.load(name, base, copy(rt, object)).ok(),
        "the load is refused",
    );
}

/// Unloads a module that is loaded.
pub fn unload(rt: &impl Abort, modules: &mut Modules, name: &str) {
    expect(rt, modules.unload(name).ok(), "the unload is refused");
}

/// Moves a module. The move is not refused.
pub fn move_to(rt: &impl Abort, modules: &mut Modules, name: &str, base: u64) {
    expect(rt, modules.move_to(name, base).ok(), "the move is refused");
}

/// Loads only the first sample at a base, with a cache of `cache_entries` answers.
pub fn one(rt: &(impl Abort + AllocGlobal), base: u64, cache_entries: usize) -> Box<Modules> {
    let mut modules = empty(rt, cache_entries);
    load(rt, &mut modules, "a", base, &inlined());
    modules
}

/// Returns the extent of an object of 0x1000 bytes from `low` on.
pub fn from(low: u64) -> Result<Extent, MapFault> {
    Ok(Extent {
        low,
        high: low.saturating_add(0x1000),
    })
}

/// Checks the result of a load of the first sample.
pub fn load_gives(
    rt: &(impl Abort + AllocGlobal),
    modules: &mut Modules,
    name: &str,
    base: u64,
    wanted: Result<Extent, MapFault>,
) {
    let actual = modules.load(name, base, copy(rt, &inlined()));
    are_equal(rt, actual, wanted);
}

/// Checks the result of a move.
pub fn move_gives(
    rt: &impl Abort,
    modules: &mut Modules,
    name: &str,
    base: u64,
    wanted: Result<Extent, MapFault>,
) {
    are_equal(rt, modules.move_to(name, base), wanted);
}

/// Returns the line of the innermost frame at an address; `None` if there is no frame.
pub fn line(modules: &mut Modules, address: u64) -> Option<u64> {
    let asked = modules.ask(address);
    match modules.answer(asked).frames().next() {
        Some(frame) => Some(frame.line()),
        None => None,
    }
}

/// Checks the name and the extent of each module of the list.
pub fn lists(rt: &impl Abort, modules: &Modules, expected: &[(&str, u64, u64)]) {
    let mut list = modules.list();
    for (name, low, base) in expected {
        let extent = Extent {
            low: *low,
            high: low.saturating_add(0x1000),
        };
        are_equal(rt, list.next(), Some((*name, extent, *base)));
    }
    are_equal(rt, list.next(), None);
}

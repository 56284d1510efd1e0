//! A load while another module is loaded. The test is run with each allocation refused in turn. The
//! other module then answers as before, and no answer is wrong.

use crate::checks::are_equal;
use crate::map::fixtures::*;
use dwarf_samples::{inlined, two_sequences};
use module_map::{MapFault, Modules};
use std::test::*;

#[test]
fn a_load_that_memory_refuses_changes_nothing(rt: HostRuntime) {
    let Ok(first) = inlined().to_vec(rt.alloc()) else {
        return;
    };
    let Ok(second) = two_sequences().to_vec(rt.alloc()) else {
        return;
    };
    let mut modules = match Modules::new(rt.alloc(), 4) {
        Ok(modules) => modules,
        Err(fault) => {
            are_equal(&rt, fault, MapFault::Memory);
            return;
        }
    };
    let is_first = modules.load("a", 0x10000, first);
    if is_first.is_err() {
        are_equal(&rt, is_first, Err(MapFault::Memory));
        lists(&rt, &modules, &[]);
        return;
    }
    are_equal(&rt, line(&mut modules, 0x11000), Some(10));
    let is_second = modules.load("b", 0, second);
    if is_second.is_err() {
        are_equal(&rt, is_second, Err(MapFault::Memory));
        lists(&rt, &modules, &[("a", 0x11000, 0x10000)]);
        are_equal(&rt, line(&mut modules, 0x1000), None);
    } else {
        lists(&rt, &modules, &[("b", 0x1000, 0), ("a", 0x11000, 0x10000)]);
        are_equal(&rt, line(&mut modules, 0x1000), Some(12));
    }
    // with a cached answer, and one that is not cached
    are_equal(&rt, line(&mut modules, 0x11000), Some(10));
    are_equal(&rt, line(&mut modules, 0x11004), Some(11));
    are_equal(&rt, modules.move_to("a", 0x20000), from(0x21000));
    are_equal(&rt, line(&mut modules, 0x21004), Some(11));
    are_equal(&rt, modules.unload("a"), Ok(()));
    are_equal(&rt, line(&mut modules, 0x21004), None);
}

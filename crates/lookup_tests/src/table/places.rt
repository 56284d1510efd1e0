//! Places of other modules, and the theorems.

use crate::checks::{are_equal, expect};
use crate::table::fixtures::*;
use addr_table::{Place, laws};
use dwarf_samples::{inlined, two_sequences};
use std::process::Abort;
use std::test::*;

/// Returns the place of 0x1004 in the first sample: row 1 and scope 4.
fn place(rt: &(impl Abort + AllocGlobal)) -> Place {
    let module = sample(rt, &inlined());
    expect(rt, find(&module, 0x1004), "no place")
}

#[test]
fn a_place_of_a_module_with_scopes(rt: HostRuntime) {
    let place = place(&rt);
    let mut bare = inlined();
    bare[543] = 0;
    let module = sample(&rt, &bare);
    are_frames(&rt, module.frames(place), &[(None, Some(b"/src/a.c"), 11)]);
}

#[test]
fn a_place_of_a_module_with_rows(rt: HostRuntime) {
    let place = place(&rt);
    let parts = Parts {
        abbrev: &[],
        info: &[],
        line: &[],
        rnglists: &[],
    };
    let module = module(&rt, object(&rt, parts));
    are_equal(&rt, find(&module, 0x1004), None);
    are_frames(&rt, module.frames(place), &[(None, None, 0)]);
}

#[test]
fn a_place_of_a_module_with_other_rows(rt: HostRuntime) {
    let place = place(&rt);
    // the same scopes
    let module = sample(&rt, &two_sequences());
    let frame = expect(&rt, module.frames(place).next(), "no frame");
    are_equal(&rt, frame.name(), Some(b"leaf".as_slice()));
}

#[test]
fn laws_may_be_cited(_rt: HostRuntime) {
    laws::constant_between_ends();
    laws::rows_are_first();
    laws::chains_are_first_of_each();
    laws::segments_are_few();
    laws::segments_give_places();
    laws::chains_are_of_enclosing_scopes();
    laws::frames_are_of_places();
}

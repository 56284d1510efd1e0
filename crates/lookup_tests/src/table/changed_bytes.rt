//! Tests each byte of the headers of the first sample with each of its 256 values.

use crate::checks::{are_equal, copy, expect};
use crate::table::fixtures::{find, numbers};
use crate::table::plain_scan::PlainObject;
use addr_table::Module;
use dwarf_samples::inlined;
use std::process::Abort;
use std::test::*;

/// Checks that an object is refused, or answers each address like a linear scan.
fn is_scanned(rt: &(impl Abort + AllocGlobal), object: &[u8]) {
    let Ok(module) = Module::decode(rt.alloc(), copy(rt, object)) else {
        return;
    };
    let plain = expect(
        rt,
        PlainObject::read(rt.alloc(), object).ok(),
        "only the reference implementation refuses the object",
    );
    for link in 0xff0..0x1021 {
        are_equal(
            rt,
            (link, numbers(find(&module, link))),
            (link, plain.numbers(link)),
        );
    }
}

/// Checks the sample with each value of the byte at an offset.
fn is_changed(rt: &(impl Abort + AllocGlobal), place: usize) {
    let mut object = inlined();
    for value in 0..=255 {
        if let Some(byte) = object.get_mut(place) {
            *byte = value;
        }
        is_scanned(rt, &object);
    }
}

#[test]
fn bytes_of_the_elf_header_and_the_program_header(rt: HostRuntime) {
    for place in 0..120 {
        is_changed(&rt, place);
    }
}

#[test]
fn bytes_of_the_unit_header_and_the_line_header(rt: HostRuntime) {
    for place in (163..175).chain(259..314) {
        is_changed(&rt, place);
    }
}

#[test]
fn bytes_of_the_section_headers(rt: HostRuntime) {
    for place in 383..703 {
        is_changed(&rt, place);
    }
}

//! Valid and invalid tables of declarations.

use crate::checks::{are_equal, expect, put};
use dwarf_bytes::{Cause, LoadFault, Section};
use dwarf_forms::{Abbrevs, AttributeSpecification, Decl};
use dwarf_samples::inlined;
use std::process::Abort;
use std::test::*;

/// The maximum number of declarations of a whole object.
const MOST: u64 = 4_194_304;

/// Checks that the table at the section's start has this fault, and that the count does not change.
fn is_refused(rt: &(impl Abort + AllocGlobal), table: &[u8], cause: Cause, at: u64) {
    let mut left = 4;
    let fault = LoadFault {
        section: Section::DebugAbbrev,
        cause,
        at,
    };
    let refused = Abbrevs::read(rt.alloc(), table, 0, &mut left).err();
    are_equal(rt, (refused, left), (Some(fault), 4));
}

/// Reads the table at the section's start without a fault.
fn read(rt: &(impl Abort + AllocGlobal), section: &[u8], left: &mut u64) -> Abbrevs {
    expect(
        rt,
        Abbrevs::read(rt.alloc(), section, 0, left).ok(),
        "the table is refused",
    )
}

/// Checks the names and forms of a declaration's attributes, and that none has a constant.
fn has_attributes(rt: &impl Abort, decl: &Decl, wanted: &[(u64, u64)]) {
    for (attribute, pair) in decl.attributes().iter().zip(wanted) {
        let (name, form) = *pair;
        let wanted = AttributeSpecification {
            name,
            form,
            constant: None,
        };
        are_equal(rt, *attribute, wanted);
    }
}

#[test]
fn declarations_of_a_unit(rt: HostRuntime) {
    let mut left = MOST;
    let table = read(&rt, &inlined()[120..163], &mut left);
    are_equal(&rt, left, MOST - 4);
    are_equal(&rt, table.decls().len(), 4);
    for (decl, (code, tag, children, attributes)) in table.decls().iter().zip([
        (1, 0x11, true, 2),
        (2, 0x2e, true, 3),
        (3, 0x1d, true, 5),
        (4, 0x2e, false, 1),
    ]) {
        let head = (decl.code(), decl.tag(), decl.children());
        are_equal(&rt, head, (code, tag, children));
        are_equal(&rt, decl.attributes().len(), attributes);
    }
    let inlined = expect(&rt, table.decls().get(2), "no declaration 3");
    let wanted = [
        (0x31, 0x13),
        (0x11, 0x01),
        (0x12, 0x06),
        (0x58, 0x0b),
        (0x59, 0x0b),
    ];
    has_attributes(&rt, inlined, &wanted);
}

/// The offsets of the sample's declarations: a fault in one of them is reported there.
#[test]
fn faults_are_at_declarations(rt: HostRuntime) {
    for (place, at) in [(2, 0), (11, 9), (22, 20), (37, 35)] {
        let mut object = inlined();
        object[120 + place] = 2;
        is_refused(&rt, &object[120..163], Cause::Children, at);
    }
}

#[test]
fn constants_in_declarations(rt: HostRuntime) {
    let mut left = MOST;
    let table = read(&rt, &[1, 0x11, 0, 3, 0x21, 0x7f, 0, 0, 0], &mut left);
    are_equal(&rt, table.decls().len(), 1);
    let decl = expect(&rt, table.decls().first(), "no declaration");
    let attribute = expect(&rt, decl.attributes().first(), "no attribute");
    are_equal(&rt, attribute.constant, Some(-1));
}

/// A code of more than ten bytes.
const LONG_CODE: [u8; 11] = [
    0x80, 0x80, 0x80, 0x80, 0x80, 0x80, 0x80, 0x80, 0x80, 0x80, 0,
];

/// Five declarations, one more than `is_refused` allows.
const FIVE: [u8; 26] = [
    1, 9, 0, 0, 0, 2, 9, 0, 0, 0, 3, 9, 0, 0, 0, 4, 9, 0, 0, 0, 5, 9, 0, 0, 0, 0,
];

#[test]
fn refused_tables(rt: HostRuntime) {
    let tables: [(&[u8], Cause, u64); 13] = [
        (&[1, 0x11, 2, 0, 0, 0], Cause::Children, 0),
        (&[1, 0x11, 0, 3, 0, 0, 0, 0], Cause::Form, 0),
        (&[1, 0x11, 0, 0, 3, 0, 0, 0], Cause::Form, 0),
        (&[1, 0x11, 0, 3, 0x1c, 0, 0, 0], Cause::Form, 0),
        (&[1, 0x11, 0, 3, 8, 3, 8, 0, 0, 0], Cause::AttrTwice, 0),
        // the form is validated before the name
        (&[1, 0x11, 0, 3, 8, 3, 0x1c, 0, 0, 0], Cause::Form, 0),
        (
            &[1, 0x11, 0, 0, 0, 1, 0x11, 0, 0, 0, 0],
            Cause::AbbrevTwice,
            5,
        ),
        (
            &[7, 0x11, 0, 0, 0, 7, 0x11, 0, 0, 0, 0],
            Cause::AbbrevTwice,
            5,
        ),
        (&[1, 0x11, 0, 0, 0], Cause::Short, 5),
        (&[1, 0x11, 0, 3, 0x21, 0xff], Cause::Short, 0),
        (&[], Cause::Short, 0),
        (&LONG_CODE, Cause::Leb, 0),
        (&FIVE, Cause::TooMany, 20),
    ];
    for (table, cause, at) in tables {
        is_refused(&rt, table, cause, at);
    }
}

/// Checks that an offset outside the section is refused.
fn is_outside(rt: &(impl Abort + AllocGlobal), section: &[u8], offset: u64, left: &mut u64) {
    let fault = LoadFault {
        section: Section::DebugAbbrev,
        cause: Cause::Short,
        at: offset,
    };
    let refused = Abbrevs::read(rt.alloc(), section, offset, left).err();
    are_equal(rt, refused, Some(fault));
}

#[test]
fn limits(rt: HostRuntime) {
    // an end code does not count as a declaration
    let mut left = 0;
    are_equal(&rt, read(&rt, &[0], &mut left).decls().len(), 0);
    let mut left = 3;
    let three = [1, 9, 0, 0, 0, 2, 9, 0, 0, 0, 3, 9, 0, 0, 0, 0];
    are_equal(&rt, read(&rt, &three, &mut left).decls().len(), 3);
    are_equal(&rt, left, 0);
    for offset in [16, 17, u64::MAX] {
        is_outside(&rt, &three, offset, &mut left);
    }
}

/// Codes in any order, each of one declaration.
#[test]
fn codes_out_of_order(rt: HostRuntime) {
    let section = [
        5, 9, 0, 0, 0, 2, 10, 0, 0, 0, 1, 11, 0, 0, 0, 0x80, 0x02, 12, 0, 0, 0, 0,
    ];
    let mut left = MOST;
    let table = read(&rt, &section, &mut left);
    for (decl, code) in table.decls().iter().zip([5, 2, 1, 256]) {
        are_equal(&rt, decl.code(), code);
    }
    let again = [
        5, 9, 0, 0, 0, 2, 10, 0, 0, 0, 0x80, 0x02, 11, 0, 0, 0, 0x80, 0x02, 12, 0, 0, 0, 0,
    ];
    is_refused(&rt, &again, Cause::AbbrevTwice, 16);
    is_refused(
        &rt,
        &[2, 9, 0, 0, 0, 1, 9, 0, 0, 0, 2, 9, 0, 0, 0, 0],
        Cause::AbbrevTwice,
        10,
    );
}

/// Builds a table of one declaration with `attributes` attributes. Their names count up from 1,
/// except for the last, which is `again`.
fn wide(rt: &(impl Abort + AllocGlobal), attributes: u8, again: u8) -> Vec<u8> {
    let mut table = Vec::new(rt.alloc());
    put(rt, &mut table, &[1, 0x11, 0]);
    for name in 1..attributes {
        put(rt, &mut table, &[name, 0x0b]);
    }
    put(rt, &mut table, &[again, 0x0b, 0, 0, 0]);
    table
}

#[test]
fn many_names(rt: HostRuntime) {
    let mut left = 1;
    let table = read(&rt, &wide(&rt, 100, 100), &mut left);
    let decl = expect(&rt, table.decls().first(), "no declaration");
    are_equal(&rt, decl.attributes().len(), 100);
    for again in [1, 32, 33, 99] {
        is_refused(&rt, &wide(&rt, 100, again), Cause::AttrTwice, 0);
    }
}

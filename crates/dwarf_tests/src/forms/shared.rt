//! Tables that overlap one list of attributes.

use crate::checks::{are_equal, expect, put};
use crate::forms::both_readers::{add, agree_at, attributes_of, lists_of, table_at};
use abbreviation_memo::{ListEnd, MemoizedLists, UNSHARED, read_specifications};
use dwarf_bytes::Cause;
use dwarf_forms::AttributeSpecification;
use std::process::Abort;
use std::test::*;

/// Builds a declaration of 100 attributes without its end, with names from 0x80 on and the form
/// addr. Another table starts at each form: its code and its children flag are forms of the list.
fn open_list(rt: &(impl Abort + AllocGlobal)) -> Vec<u8> {
    let mut section = Vec::new(rt.alloc());
    put(rt, &mut section, &[1, 1, 0]);
    for name in 0u8..100 {
        put(rt, &mut section, &[0x80 | name, 1, 1]);
    }
    section
}

/// Builds the declaration with its end.
fn one_list(rt: &(impl Abort + AllocGlobal)) -> Vec<u8> {
    let mut section = open_list(rt);
    put(rt, &mut section, &[0, 0, 0]);
    section
}

/// Returns the attributes of that list from a name on.
fn attributes_from(rt: &(impl Abort + AllocGlobal), first: u64) -> Vec<AttributeSpecification> {
    let mut attributes = Vec::new(rt.alloc());
    for name in first..0x80 + 100 {
        let attribute = AttributeSpecification {
            name,
            form: 1,
            constant: None,
        };
        add(rt, &mut attributes, attribute);
    }
    attributes
}

/// Reads the table at an offset. Returns the attributes of its first declaration.
fn first_of(
    rt: &(impl Abort + AllocGlobal),
    lists: &mut MemoizedLists<'_>,
    offset: usize,
) -> Vec<AttributeSpecification> {
    let table = expect(
        rt,
        table_at(rt, lists, offset, 1).ok(),
        "the table is refused",
    );
    let (_, place) = expect(rt, table.first(), "no declaration");
    attributes_of(rt, lists.section(), *place)
}

/// Checks that the table at an offset has a declaration with the attributes from a name on. Also
/// checks the number of memoized lists.
fn is_shared(
    rt: &(impl Abort + AllocGlobal),
    lists: &mut MemoizedLists<'_>,
    offset: usize,
    first: u64,
    memoized: usize,
) {
    let shared = first_of(rt, lists, offset);
    are_equal(rt, lists.places().len(), memoized);
    let wanted = attributes_from(rt, first);
    are_equal(rt, shared.as_slice() == wanted.as_slice(), true);
}

/// Checks the same if no other list of the section is memoized.
fn is_alone(
    rt: &(impl Abort + AllocGlobal),
    section: &[u8],
    offset: usize,
    first: u64,
    memoized: usize,
) {
    let mut lists = lists_of(rt, section);
    is_shared(rt, &mut lists, offset, first, memoized);
}

#[test]
fn tables_within_one_list(rt: HostRuntime) {
    let section = one_list(&rt);
    let mut lists = lists_of(&rt, &section);
    // one list from each later attribute on, and the empty list at the end
    let later = 100 - UNSHARED + 1;
    is_shared(&rt, &mut lists, 0, 0x80, later);
    // from the forms of the attributes 9, 34 and 35: their tables have the attributes after the
    // next one
    is_shared(&rt, &mut lists, 32, 0x8b, later);
    is_shared(&rt, &mut lists, 107, 0xa4, later);
    is_shared(&rt, &mut lists, 110, 0xa5, later);
}

#[test]
fn tables_within_one_list_alone(rt: HostRuntime) {
    let section = one_list(&rt);
    is_alone(&rt, &section, 0, 0x80, 101 - UNSHARED);
    is_alone(&rt, &section, 32, 0x8b, 90 - UNSHARED);
    is_alone(&rt, &section, 107, 0xa4, 1);
    is_alone(&rt, &section, 110, 0xa5, 0);
}

/// Reads the list at an offset. Checks the offset after its first attributes, their number, and
/// the end of the list.
fn has_first(
    rt: &(impl Abort + AllocGlobal),
    section: &[u8],
    place: usize,
    rest: Option<usize>,
    len: usize,
) {
    let mut lists = lists_of(rt, section);
    let mut first = Vec::new(rt.alloc());
    let found = read_specifications(rt.alloc(), &mut lists, &mut first, place);
    are_equal(rt, found.ok(), Some(ListEnd { rest, after: 305 }));
    are_equal(rt, first.len(), len);
}

#[test]
fn first_attributes_of_lists(rt: HostRuntime) {
    let section = one_list(&rt);
    has_first(&rt, &section, 3, Some(3 + 3 * 64), 64);
    // with 64 attributes, an empty list follows
    has_first(&rt, &section, 3 + 3 * 36, Some(303), 64);
    has_first(&rt, &section, 3 + 3 * 37, None, 63);
    has_first(&rt, &section, 303, None, 0);
}

// The test runner can make each allocation fail.
#[test]
fn out_of_memory_is_the_only_fault_of_a_valid_list(rt: HostRuntime) {
    let section = [0x03, 0x08, 0x11, 0x01, 0, 0];
    let mut lists = lists_of(&rt, &section);
    let mut first = Vec::new(rt.alloc());
    match read_specifications(rt.alloc(), &mut lists, &mut first, 0) {
        Ok(list) => are_equal(&rt, (list.rest, first.len(), list.after), (None, 2, 6)),
        Err(cause) => are_equal(&rt, cause, Cause::Memory),
    }
}

/// Builds a declaration of 100 attributes, like `one_list`, with another name and form at an index.
fn with_attribute(rt: &(impl Abort + AllocGlobal), index: u8, name: u8, form: u8) -> Vec<u8> {
    let mut section = Vec::new(rt.alloc());
    put(rt, &mut section, &[1, 1, 0]);
    for number in 0u8..100 {
        if number == index {
            put(rt, &mut section, &[0x80 | name, 1, form]);
        } else {
            put(rt, &mut section, &[0x80 | number, 1, 1]);
        }
    }
    put(rt, &mut section, &[0, 0, 0]);
    section
}

#[test]
fn late_name_of_an_own_attribute(rt: HostRuntime) {
    agree_at(&rt, &with_attribute(&rt, 80, 3, 1), 0);
}

#[test]
fn late_name_of_a_memoized_attribute(rt: HostRuntime) {
    agree_at(&rt, &with_attribute(&rt, 90, 70, 1), 0);
}

#[test]
fn late_form_that_is_unknown(rt: HostRuntime) {
    agree_at(&rt, &with_attribute(&rt, 80, 80, 0x7f), 0);
}

#[test]
fn long_list_without_an_end(rt: HostRuntime) {
    agree_at(&rt, &open_list(&rt), 0);
}

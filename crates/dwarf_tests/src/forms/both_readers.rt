//! A comparison of the reader of a single table and the one that memoizes attribute lists.

use crate::checks::{are_equal, expect};
use abbreviation_memo::{ListStart, MemoizedLists, read_specifications};
use dwarf_bytes::{Cause, Cursor};
use dwarf_forms::steps::{CodeIndex, Head};
use dwarf_forms::{Abbrevs, AttributeSpecification, Decl};
use dwarf_samples::inlined;
use std::process::Abort;
use std::test::*;

/// Returns the lists of a section, with no list memoized.
pub fn lists_of<'a>(rt: &(impl Abort + AllocGlobal), section: &'a [u8]) -> MemoizedLists<'a> {
    expect(
        rt,
        MemoizedLists::new(rt.alloc(), section).ok(),
        "out of memory",
    )
}

/// Appends an attribute.
pub fn add(
    rt: &impl Abort,
    attributes: &mut Vec<AttributeSpecification>,
    attribute: AttributeSpecification,
) {
    expect(rt, attributes.push(attribute).ok(), "out of memory");
}

/// Appends the first attribute of the list at an offset. Returns the offset of the others, or
/// `None` if the list is empty.
fn add_first(
    rt: &(impl Abort + AllocGlobal),
    section: &[u8],
    place: usize,
    attributes: &mut Vec<AttributeSpecification>,
) -> Option<usize> {
    let start = expect(
        rt,
        ListStart::read(rt.alloc(), section, place).ok(),
        "the list is refused",
    );
    let attribute = start.attribute?;
    add(rt, attributes, attribute);
    Some(start.rest)
}

/// Returns the attributes of the list at an offset, in order.
pub fn attributes_of(
    rt: &(impl Abort + AllocGlobal),
    section: &[u8],
    place: usize,
) -> Vec<AttributeSpecification> {
    let mut attributes = Vec::new(rt.alloc());
    let mut next = Some(place);
    for _ in 0..section.len() {
        if let Some(place) = next {
            next = add_first(rt, section, place, &mut attributes);
        }
    }
    attributes
}

/// Reads the table at an offset, of at most `budget` declarations. Returns the head of each
/// declaration and the offset of its attributes.
pub fn table_at(
    rt: &(impl Abort + AllocGlobal),
    lists: &mut MemoizedLists<'_>,
    offset: usize,
    budget: u64,
) -> Result<Vec<(Head, usize)>, Cause> {
    let mut cursor = Cursor::new(lists.section());
    cursor.seek(offset)?;
    let mut codes = CodeIndex::new(rt.alloc());
    let mut first = Vec::new(rt.alloc());
    let mut declarations = Vec::new(rt.alloc());
    for _ in 0..budget.saturating_add(1) {
        let Some(head) = Head::next(&codes, budget, &mut cursor)? else {
            break;
        };
        let place = cursor.place();
        let list = read_specifications(rt.alloc(), lists, &mut first, place)?;
        cursor.seek(list.after)?;
        let attributes = attributes_of(rt, lists.section(), place);
        are_equal(rt, attributes.get(..first.len()), Some(first.as_slice()));
        codes.push(head.code)?;
        declarations.push((head, place))?;
    }
    Ok(declarations)
}

/// Checks that both readers return the same declaration.
fn is_same(
    rt: &(impl Abort + AllocGlobal),
    decl: &Decl,
    section: &[u8],
    (head, place): &(Head, usize),
) {
    let parts = (head.code, head.tag, head.children);
    are_equal(rt, (decl.code(), decl.tag(), decl.children()), parts);
    let attributes = attributes_of(rt, section, *place);
    are_equal(rt, decl.attributes(), attributes.as_slice());
}

/// Checks that both readers return the same declarations.
fn are_same(
    rt: &(impl Abort + AllocGlobal),
    alone: &Abbrevs,
    section: &[u8],
    shared: &[(Head, usize)],
) {
    are_equal(rt, alone.decls().len(), shared.len());
    for (decl, other) in alone.decls().iter().zip(shared) {
        is_same(rt, decl, section, other);
    }
}

/// Reads the table at an offset with both readers, and checks that both refuse it or that they
/// return the same declarations.
pub fn agree_at(rt: &(impl Abort + AllocGlobal), section: &[u8], offset: usize) {
    let mut lists = lists_of(rt, section);
    let mut left = 3;
    let alone = Abbrevs::read(rt.alloc(), section, offset as u64, &mut left);
    let shared = table_at(rt, &mut lists, offset, 3);
    are_equal(rt, alone.is_ok(), shared.is_ok());
    if let (Ok(alone), Ok(shared)) = (alone, shared) {
        are_same(rt, &alone, section, &shared);
    }
}

/// Reads a table, valid or not, at each offset of a section, and checks that both readers agree.
fn agree(rt: &(impl Abort + AllocGlobal), section: &[u8]) {
    for offset in 0..section.len() + 2 {
        agree_at(rt, section, offset);
    }
}

#[test]
fn readers_agree_at_each_offset(rt: HostRuntime) {
    let sections: [&[u8]; 4] = [
        // the sample's
        &inlined()[120..163],
        // a constant
        &[
            1, 9, 0, 3, 0x21, 0x7f, 0, 0, 2, 9, 1, 0, 0, 3, 9, 0, 0, 0, 0,
        ],
        // a repeated code
        &[1, 9, 0, 0, 0, 2, 9, 0, 0, 0, 1, 9, 0, 0, 0, 0],
        // a repeated attribute
        &[1, 9, 0, 3, 8, 4, 8, 3, 8, 0, 0, 0],
    ];
    for section in sections {
        agree(&rt, section);
    }
}

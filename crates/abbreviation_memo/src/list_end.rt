//! The first attributes of a list, and its end (DWARF 5, 7.5.3).

ghost use Rattle.std.specs.{Prelude.{◌≡◌, ◌==◌, IfOk, Ok}, List.list_any};
ghost use Rattle.dwarf_forms.specs.Tables.{attributes_at};
ghost use Rattle.abbreviation_memo.specs.Lists.{IsListAt, StartsList, StartsWith, list_at};

use crate::memoize::memoize;
use crate::memoized_lists::MemoizedLists;
use dwarf_bytes::{Cause, Cursor};
use dwarf_forms::AttributeSpecification;
use dwarf_forms::steps::first_attribute;
use std::alloc::Global;

/// The number of first attributes that are never memoized. Compilers write shorter lists.
pub const UNSHARED: usize = 64;

/// Where a list of attributes ends.
#[derive(Clone, Copy, Debug, PartialEq, Eq)]
pub struct ListEnd {
    /// The offset of the attributes after the first `UNSHARED`, unless the list ends before.
    pub rest: Option<usize>,
    /// The offset after the two zeros that end the list.
    pub after: usize,
}

/// Reads the list of attributes at an offset of `.debug_abbrev`. Replaces the contents of `first`
/// by the first ones, at most `UNSHARED`. The others are memoized, and are read only if they were
/// not memoized before. An error says only that the table is to be parsed alone, which reports its
/// fault.
pub fn read_specifications(
    alloc: Global,
    lists: &mut MemoizedLists<'_>,
    first: &mut Vec<AttributeSpecification>,
    place: usize,
) -> Result<ListEnd, Cause>
    ensures reads { IfOk result (λ list.
        attributes_at lists.old place ≡ Ok (list_at lists.old place, list.after)) }
    ensures starts { IfOk result (λ list.
        StartsWith lists.old place first.new.items list.rest) }
    ensures section { lists.new ≡ lists.old }
{
    let mut cursor = Cursor::new(lists.section());
    cursor.seek(place)?;
    let Some(rest) = first_attributes(alloc, first, &mut cursor)? else {
        let after = cursor.place();
        return Ok(ListEnd { rest: None, after });
    };
    memoize(alloc, lists, rest)?;
    lists.skip(first, &mut cursor)?;
    let after = cursor.place();
    let rest = Some(rest);
    Ok(ListEnd { rest, after })
}

/// Replaces the contents of `first` by the first attributes of the list at the cursor, at most
/// `UNSHARED`. Returns the offset of the others, or `None` if the list ends before. Fails at the
/// first attribute that is invalid or has the name of another.
fn first_attributes(
    alloc: Global,
    first: &mut Vec<AttributeSpecification>,
    cursor: &mut Cursor,
) -> Result<Option<usize>, Cause>
    ensures reads { IfOk result (λ rest. StartsList cursor.old.bytes cursor.old.place
        first.new.items rest cursor.new.place) }
    ensures valid { IfOk result (λ rest. IsListAt cursor.old.bytes cursor.old.place
        → StartsWith cursor.old.bytes cursor.old.place first.new.items rest) }
    ensures bytes { IfOk result (λ _. cursor.new.bytes ≡ cursor.old.bytes) }
{
    first.clear();
    while first.len() < UNSHARED {
        let Some(attribute) = first_attribute(alloc, cursor)? else {
            return Ok(None);
        };
        if has_name(first, attribute.name) {
            return Err(Cause::AttrTwice);
        }
        first.push(attribute)?;
    }
    Ok(Some(cursor.place()))
}

fn has_name(attributes: &[AttributeSpecification], name: u64) -> bool
    ensures { result ≡ list_any (λ attribute. attribute.name == name) attributes.now }
{
    attributes.iter().any(|attribute| attribute.name == name)
}

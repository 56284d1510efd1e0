//! Memoizes attribute lists (DWARF 5, 7.5.3). An error says only that the table is to be parsed
//! alone, which reports its fault.

ghost use Rattle.std.specs.Prelude.{◌≡◌};

use crate::list_start::ListStart;
use crate::memoized_lists::MemoizedLists;
use dwarf_bytes::Cause;
use std::alloc::Global;

/// Memoizes the list at an offset. The offsets that the search finds are not trusted: each list is
/// read again when it is memoized.
pub(crate) fn memoize(
    alloc: Global,
    lists: &mut MemoizedLists<'_>,
    place: usize,
) -> Result<(), Cause>
    ensures { lists.new ≡ lists.old }
{
    let mut places = new_places(alloc, lists, place)?;
    while let Some(place) = places.pop() {
        lists.put(alloc, place)?;
    }
    Ok(())
}

/// Returns the offsets in the list at `place` from which its rest is not memoized, in order.
fn new_places(alloc: Global, lists: &MemoizedLists<'_>, place: usize) -> Result<Vec<usize>, Cause> {
    let mut places = Vec::new(alloc);
    let mut place = place;
    while !lists.contains(place) {
        places.push(place)?;
        let start = ListStart::read(alloc, lists.section(), place)?;
        if start.attribute.is_none() {
            break;
        }
        place = start.rest;
    }
    Ok(places)
}

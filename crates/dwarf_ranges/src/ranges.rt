//! The address ranges of a scope (DWARF 5, 2.17 and 7.25).

ghost use Rattle.std.specs.Prelude.{◌≡◌, ◌≤◌, ◌++◌, IfOk, length};
ghost use Rattle.dwarf_ranges.specs.Ranges.{list_place, list_at, list_of, high_of, pair_range};
ghost use Rattle.dwarf_ranges.specs.Ranges.{pair_at, covers_by, next_base, ranges_in, AddsRanges};
ghost use Rattle.dwarf_walk.specs.Sections.{sections_of};

use crate::bases::{Bases, address_of, item_at};
use crate::range::{Range, live_range};
use crate::range_entries::{RangeListEntry, next_entry};
use dwarf_bytes::constants::DW_FORM_RNGLISTX;
use dwarf_bytes::{Cause, Cursor, TableKind};
use dwarf_units::{AttributeValue, is_address};
use dwarf_walk::{ScopeEntry, Sections};
use std::alloc::AllocError;

/// Appends the ranges of a scope, given by its low_pc, high_pc and ranges, to `all`. Returns the
/// number of range items that were read, which is at most `budget`. Fails if the attributes
/// contradict each other.
pub fn covers(
    budget: u64,
    sections: &Sections<'_>,
    bases: &Bases,
    entry: &ScopeEntry,
    all: &mut Vec<Range>,
) -> Result<u64, Cause>
    ensures { AddsRanges result all.old.items all.new.items (covers_by budget
        (sections_of sections.now) bases.now entry.now.low_pc entry.now.high_pc entry.now.ranges) }
{
    match (entry.low_pc, entry.high_pc, entry.ranges) {
        (None, None, Some(ranges)) => add_list_of(budget, sections, bases, ranges, all),
        (_, _, Some(_)) | (None, Some(_), None) => Err(Cause::PcAndRanges),
        (Some(low_pc), Some(high_pc), None) => {
            add_pair(budget, sections, bases, low_pc, high_pc, all)
        }
        (_, None, None) => Ok(0),
    }
}

/// Appends the ranges of the range list that an attribute refers to.
#[tactic(auto, using(crate::proofs::ListLaws::list_outside))]
fn add_list_of(
    budget: u64,
    sections: &Sections<'_>,
    bases: &Bases,
    value: AttributeValue,
    all: &mut Vec<Range>,
) -> Result<u64, Cause>
    ensures { AddsRanges result all.old.items all.new.items (list_of budget
        (sections_of sections.now) bases.now value) }
{
    let place = list_place(sections, bases, value)?;
    if place > sections.debug_rnglists.len() as u128 {
        return Err(Cause::Short);
    }
    add_list(budget, sections, bases, place as usize, all)
}

/// Returns the offset in `.debug_rnglists` of the range list that an attribute refers to.
fn list_place(sections: &Sections<'_>, bases: &Bases, value: AttributeValue) -> Result<u128, Cause>
    ensures { result ≡ list_place (sections_of sections.now) bases.now value }
{
    if value.form != DW_FORM_RNGLISTX {
        return Ok(u128::from(value.number));
    }
    let rnglists = bases.rnglists;
    let lists = sections.debug_rnglists;
    let offset = item_at(TableKind::RngLists, lists, rnglists, value.number)?;
    let table = rnglists.ok_or(Cause::Base)?;
    Ok(u128::from(table.base) + u128::from(offset))
}

/// Appends the ranges of the list at an offset of `.debug_rnglists`. Reads up to `budget` entries.
fn add_list(
    budget: u64,
    sections: &Sections<'_>,
    bases: &Bases,
    place: usize,
    all: &mut Vec<Range>,
) -> Result<u64, Cause>
    requires { place ≤ length sections.now.debug_rnglists.now }
    ensures { AddsRanges result all.old.items all.new.items (list_at budget
        (sections_of sections.now) bases.now place) }
{
    let mut cursor = Cursor::new(sections.debug_rnglists);
    cursor.seek(place)?;
    let mut items = 0;
    let mut base = bases.low_pc;
    while let Some(entry) = next_entry(budget, items, base, sections, bases, &mut cursor)? {
        items += 1;
        add_entry(entry, &mut base, all)?;
    }
    Ok(items)
}

/// Sets the current base to the base that an entry sets, or appends the range that it covers.
fn add_entry(
    entry: RangeListEntry,
    base: &mut Option<u64>,
    all: &mut Vec<Range>,
) -> Result<(), AllocError>
    ensures base { base.new ≡ next_base entry base.old }
    ensures ranges { IfOk result (λ _. all.new.items ≡ all.old.items ++ ranges_in entry) }
{
    match entry {
        RangeListEntry::Base(new) => *base = Some(new),
        RangeListEntry::Covers(covered) => {
            if let Some(range) = covered {
                all.push(range)?;
            }
        }
    }
    Ok(())
}

/// Returns the end address of a high_pc: an address, or a length added to the start.
fn high(
    sections: &Sections<'_>,
    bases: &Bases,
    low: u64,
    high_pc: AttributeValue,
) -> Result<u128, Cause>
    ensures { result ≡ high_of (sections_of sections.now) bases.now low high_pc }
{
    if is_address(high_pc.form) {
        return Ok(u128::from(address_of(sections, bases.addr, high_pc)?));
    }
    Ok(u128::from(low) + u128::from(high_pc.number))
}

/// Returns the range of a low_pc and high_pc, or `None` if it is empty.
fn pair(
    sections: &Sections<'_>,
    bases: &Bases,
    low_pc: AttributeValue,
    high_pc: AttributeValue,
) -> Result<Option<Range>, Cause>
    ensures { result ≡ pair_range (sections_of sections.now) bases.now low_pc high_pc }
{
    let start = address_of(sections, bases.addr, low_pc)?;
    let end = high(sections, bases, start, high_pc)?;
    live_range(u128::from(start), end)
}

/// Appends the range of a low_pc and high_pc, if the budget has at least one item.
fn add_pair(
    budget: u64,
    sections: &Sections<'_>,
    bases: &Bases,
    low_pc: AttributeValue,
    high_pc: AttributeValue,
    all: &mut Vec<Range>,
) -> Result<u64, Cause>
    ensures { AddsRanges result all.old.items all.new.items (pair_at budget
        (sections_of sections.now) bases.now low_pc high_pc) }
{
    if budget == 0 {
        return Err(Cause::TooMany);
    }
    if let Some(range) = pair(sections, bases, low_pc, high_pc)? {
        all.push(range)?;
    }
    Ok(1)
}

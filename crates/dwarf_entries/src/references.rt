//! Resolution of references to entries (DWARF 5, 2.13 and 7.5.5).

ghost use Rattle.std.specs.{List.Sorted.{IsNonDecreasingBy, IsPartitionPoint}, Prelude.{◌<◌, ◌≡◌}};
ghost use Rattle.std.specs.Prelude.{MatchOption, Some, length, slice_get, ◌≤◌, ◌⊎◌};
ghost use Rattle.dwarf_entries.specs.{Units.CompilationUnit, Names.{member_at, members_of}};
ghost use Rattle.dwarf_entries.specs.{Names.target_of, Private.Members.{Finds, LeadsTo, member_in}};

use crate::units::Units;
use dwarf_bytes::constants::DW_FORM_REF_ADDR;
use dwarf_units::{AttributeValue, UnitHeader};
use dwarf_walk::UnitEntries;

/// The offset of an entry in `.debug_info`, with the index of its unit.
#[derive(Clone, Copy)]
pub(crate) struct UnitPlace {
    pub(crate) unit: usize,
    pub(crate) offset: usize,
}

impl<'a> Units<'a> {
    /// Resolves a reference in a unit, or returns `None` if no entry is at its target.
    pub(crate) fn target(&self, unit: usize, reference: AttributeValue) -> Option<UnitPlace>
        ensures { (u : CompilationUnit) → slice_get self.now.units unit ≡ Some u
            → Finds self.now.units result (target_of self.now.units u reference) }
    {
        self.entry_place(unit, self.target_offset(unit, reference)?)
    }

    /// Resolves a reference in a unit to an offset of the section. A DW_FORM_ref_addr is relative
    /// to the start of `.debug_info`, and all other forms are relative to the first byte of the
    /// unit. Returns `None` if their target is not within the unit.
    // Inlined: called for each scope and each reference.
    #[inline(always)]
    pub(crate) fn target_offset(&self, unit: usize, reference: AttributeValue) -> Option<usize>
        ensures { (u : CompilationUnit) → slice_get self.now.units unit ≡ Some u
            → LeadsTo self.now.units result (target_of self.now.units u reference) }
    {
        if reference.form == DW_FORM_REF_ADDR {
            return Some(reference.number as usize);
        }
        let header = &self.units.get(unit)?.header;
        place_within(header, header.start as u128 + u128::from(reference.number))
    }

    /// Returns the place of the entry at an offset, if there is one. The unit at the index `guess`
    /// is tried first.
    pub(crate) fn entry_place(&self, guess: usize, offset: usize) -> Option<UnitPlace>
        ensures { Finds self.now.units result (member_at (members_of self.now.units) offset) }
    {
        if !self.bitmap.has_entry(offset) {
            return None;
        }
        let unit = self.unit_of(guess, offset);
        Some(UnitPlace { unit, offset })
    }

    /// Returns the index of the unit that contains an offset. Tries the unit at `guess` first.
    fn unit_of(&self, guess: usize, offset: usize) -> usize
        ensures { member_in self.now.units result offset
            ≡ member_at (members_of self.now.units) offset }
    {
        if let Some(stored) = self.units.get(guess) {
            if place_within(&stored.header, offset as u128).is_some() {
                return guess;
            }
        }
        ends_by(&self.units, offset as u64)
    }
}

/// Returns an offset of the section, if it is within the unit of a header.
fn place_within(header: &UnitHeader, offset: u128) -> Option<usize>
    ensures { MatchOption result ((offset < header.now.start) ⊎ (header.now.«end» ≤ offset))
        (λ place. (place ≡ offset) × (header.now.start ≤ place) × (place < header.now.«end»)) }
{
    if offset < header.start as u128 || header.end as u128 <= offset {
        return None;
    }
    Some(offset as usize)
}

/// Returns the number of units that end at or before an offset.
// Not inlined: few references lead to another unit.
#[inline(never)]
fn ends_by(units: &[UnitEntries], offset: u64) -> usize
    ensures within { result ≤ length units.now }
    ensures parts { IsNonDecreasingBy (λ unit. unit.header.end) units.now
        → IsPartitionPoint (λ unit. unit.header.end ≤ offset)
        (λ unit. offset < unit.header.end) units.now result }
{
    units.partition_point(|unit| unit.header.end as u64 <= offset)
}

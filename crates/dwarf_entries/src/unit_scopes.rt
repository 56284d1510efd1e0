//! The pass over all scopes (DWARF 5, 3.3), which resolves their names and then their ranges.

ghost use Rattle.std.specs.Prelude.{◌≡◌, ◌≤◌, ◌<◌, ◌+◌, ◌^◌, List, Some, ◌-◌, length, min};
ghost use Rattle.std.specs.Prelude.{map, slice_get, IfOk};
ghost use Rattle.dwarf_entries.specs.{Passes.PassGives, Private.EntryOffsets.scope_count};
ghost use Rattle.dwarf_entries.specs.Private.Passes.{IsScopeSite, IsSiteRead, scope_facts};
ghost use Rattle.dwarf_entries.specs.Private.Passes.{AreParsedTo, ParsesTo, first_number};
ghost use Rattle.dwarf_entries.specs.{Private.Shared.AddsFacts, Scopes.{ParsedScope, ScopeSite}};
ghost use Rattle.dwarf_entries.specs.Scopes.{all_scopes, roots_from, scope_at, scopes_of, sites_in};
ghost use Rattle.dwarf_entries.specs.Units.{CompilationUnit};

use crate::calls::CallSite;
use crate::origin_chains::{PackedNames, UnitEntry};
use crate::scope::ScopeFacts;
use crate::scope_lists::ScopeLists;
use crate::units::Units;
use dwarf_bytes::{Cause, LoadFault, Section};
use dwarf_ranges::{Range, covers};
use dwarf_walk::{ScopeEntry, UnitEntries};
use std::alloc::Global;

/// The maximum number of range items that are read for an object.
const ITEMS_LIMIT: u64 = 4_194_304;

/// The index of the unit of a scope, the number of the scope, and the number of scopes below it.
#[derive(Clone, Copy)]
pub(crate) struct ScopeNumbers {
    pub(crate) unit: usize,
    pub(crate) number: usize,
    pub(crate) inside: usize,
}

impl<'a> Units<'a> {
    /// Returns the number of units.
    fn len(&self) -> usize
        ensures { result ≡ length self.now.units }
    {
        self.units.len()
    }

    /// Returns the number of scopes of a unit.
    #[tactic(auto, using(crate::proofs::UnitPasses::RereadLaws::stored_scopes))]
    fn scopes_in(&self, unit: usize) -> usize
        requires { unit < length self.now.units }
        ensures { (u : CompilationUnit) → slice_get self.now.units unit ≡ Some u
            → result ≡ length (sites_in u u.dies) }
    {
        self.units[unit].scopes.len()
    }

    /// Re-reads the scope at an index of a unit. Also returns the number of scopes below it.
    fn site(&mut self, unit: usize, index: usize) -> Result<(ScopeEntry, u32), LoadFault>
        requires unit { unit < length self.old.units }
        requires index { (u : CompilationUnit) → slice_get self.old.units unit ≡ Some u
            → index < length (sites_in u u.dies) }
        ensures site { (u : CompilationUnit) → slice_get self.old.units unit ≡ Some u
            → IsSiteRead result (slice_get (sites_in u u.dies) index) }
        ensures same { self.new ≡ self.old }
    {
        let stored = &self.units[unit];
        let place = stored.scopes[index];
        let entry = match self.reader.scope(stored, place.offset as usize) {
            Err(cause) => {
                let at = u64::from(place.offset);
                return Err(LoadFault::at_item(Section::DebugInfo, cause, at));
            }
            Ok(entry) => entry,
        };
        Ok((entry, place.inside))
    }

    /// Resolves the names and ranges of a scope. Returns its data and the number of range items
    /// that were read, which is at most `budget`. Appends its ranges to `ranges`.
    fn scope(
        &mut self,
        numbers: ScopeNumbers,
        entry: &ScopeEntry,
        budget: u64,
        ranges: &mut Vec<Range>,
    ) -> Result<(ScopeFacts, u64), Cause>
        requires unit { numbers.unit < length self.old.units }
        requires end { numbers.number + numbers.inside + 1 < 2 ^ 64 }
        ensures parsed { (before : List ParsedScope) (p : ScopeSite)
            → IsScopeSite self.old.units numbers entry.now budget before p
            → AddsFacts (roots_from 0 self.old.units) result ranges.old.items ranges.new.items
            (scope_at self.old.sections self.old.units before p) }
        ensures budget { IfOk result (λ found. found.1 ≤ budget) }
        ensures same { self.new ≡ self.old }
    {
        let start = UnitEntry {
            unit: numbers.unit,
            entry: entry.entry,
        };
        let names = self.names(start)?;
        let bases = &self.bases[numbers.unit];
        let items = covers(budget, self.sections, bases, entry, ranges)?;
        Ok((facts(numbers, entry, names), items))
    }

    /// Re-reads and appends the scopes of a unit. `left` is the number of range items left to read.
    fn unit_scopes(
        &mut self,
        unit: usize,
        left: &mut u64,
        lists: &mut ScopeLists,
    ) -> Result<(), LoadFault>
        requires unit { unit < length self.old.units }
        ensures scopes { AreParsedTo self.old.sections self.old.units
            (first_number self.old.units unit) lists.old left.old
            → ParsesTo result self.old.sections self.old.units
            (first_number self.old.units (unit + 1)) lists.new left.new }
        ensures same { self.new ≡ self.old }
    {
        for index in 0..self.scopes_in(unit) {
            let (entry, inside) = self.site(unit, index)?;
            let numbers = ScopeNumbers {
                unit,
                number: lists.scopes.len(),
                inside: inside as usize,
            };
            match self.scope(numbers, &entry, *left, &mut lists.ranges) {
                Err(cause) => {
                    let at = entry.entry.offset as u64;
                    return Err(LoadFault::at_item(Section::DebugInfo, cause, at));
                }
                Ok((facts, items)) => {
                    *left -= items;
                    lists.push(facts)?;
                }
            }
        }
        Ok(())
    }

    /// Resolves the scopes of all units.
    pub(crate) fn scopes(&mut self, alloc: Global) -> Result<ScopeLists, LoadFault>
        ensures scopes { PassGives (λ lists parsed. scopes_of (roots_from 0 self.old.units) lists
            ≡ map (λ j. j.scope) parsed) result
            (all_scopes self.old.sections self.old.units) }
        ensures same { self.new ≡ self.old }
    {
        let mut left = ITEMS_LIMIT;
        let mut lists = ScopeLists::new(alloc, scope_count(&self.units))?;
        for unit in 0..self.len() {
            self.unit_scopes(unit, &mut left, &mut lists)?;
        }
        Ok(lists)
    }
}

/// Combines the entry of a scope and its names.
fn facts(numbers: ScopeNumbers, entry: &ScopeEntry, names: PackedNames) -> ScopeFacts
    requires { numbers.number + numbers.inside + 1 < 2 ^ 64 }
    ensures { result ≡ scope_facts numbers entry.now names }
{
    ScopeFacts {
        kind: entry.kind,
        offset: entry.entry.offset,
        number: numbers.number,
        end: numbers.number + numbers.inside + 1,
        name: names.name,
        linkage_name: names.linkage_name,
        site: CallSite {
            file: entry.call_file,
            line: entry.call_line,
        },
    }
}

/// Returns the number of scopes of all units, or `usize::MAX` if it is larger.
fn scope_count(units: &[UnitEntries]) -> usize
    ensures { result ≡ min (scope_count units.now) (2 ^ 64 - 1) }
{
    let mut count: usize = 0;
    for unit in units {
        count = count.saturating_add(unit.scopes.len());
    }
    count
}

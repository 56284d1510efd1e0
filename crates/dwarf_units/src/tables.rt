//! A cache of the abbreviation tables of all units (DWARF 5, 7.5.3).

ghost use Rattle.std.specs.{List.All, Prelude.{◌≡◌, ℕ, ◌+◌, ◌<◌, ◌≤◌, List, Some, Ok, length}};
ghost use Rattle.std.specs.Prelude.{slice_get, IfOk, IfSome, IfNone, IsTrue, OnErr, OnOk, nat_lt};
ghost use Rattle.dwarf_bytes.specs.Refusals.{in_section};
ghost use Rattle.dwarf_forms.specs.Declarations.{Declaration};
ghost use Rattle.dwarf_units.specs.{AbbreviationTables.Table, Private.Tables.IsAdded};
ghost use Rattle.dwarf_units.specs.{Private.Tables.StaysCached, Tables.{AreElsewhere, IsAt}};
ghost use Rattle.dwarf_units.specs.Tables.{IsCachedOrTooLarge, IsNumberOf, IsTableAt, Refuses};
ghost use Rattle.dwarf_units.specs.Tables.{IsWithinLimit, table_read, with_table};
ghost use Rattle.dwarf_units.specs.Units.{declarations_limit, tables_of};
ghost use Rattle.dwarf_bytes.specs.declared.fault.Section.TheVariants as sections;

use crate::cached_table::CachedTable;
use crate::linked_lists::LinkedLists;
use crate::table_store::TableStore;
use crate::unit_headers::UnitHeader;
use crate::unit_table::UnitTable;
use dwarf_bytes::LoadFault;
use std::alloc::Global;
use std::marker::Model;

/// The maximum number of declarations that are read for all units of an object.
const DECLARATIONS_LIMIT: u64 = 4_194_304;

/// The abbreviation tables that the units of an object use, with the positions of their attributes.
#[derive(Drop)]
pub struct Tables<'a> {
    lists: LinkedLists<'a>,
    store: TableStore<'a>,
}

impl<'a> Model for Tables<'a> {
    ghost use Rattle.std.specs.Prelude.{◌≡◌};
    ghost use Rattle.dwarf_units.specs.Tables.{CachedTables};

    ghost Value = { CachedTables };

    ghost view = { λ t. t.store };

    ghost invariant = { λ t. t.lists ≡ t.store.section };
}

impl<'a> Tables<'a> {
    /// Parses the table of each unit, unless a table with its offset and format is cached. A fault
    /// is reported at the offset of its declaration. Memory is bounded. Lists of the attributes
    /// after the first ones are memoized once for each offset of the section. Tables are cached
    /// permanently up to a total size of that of the section + 65,536, where a declaration counts
    /// as 5 and each of its first attributes as 2.
    pub fn validate(
        alloc: Global,
        section: &'a [u8],
        units: &[UnitHeader],
    ) -> Result<Tables<'a>, LoadFault>
        ensures ok { IfOk result (λ _. (tables : List (List Declaration))
            × (in_section sections.DebugAbbrev (tables_of section.now units.now) ≡ Ok tables)) }
        ensures err { Refuses result
            (in_section sections.DebugAbbrev (tables_of section.now units.now)) }
        ensures section { IfOk result (λ tables. tables.section ≡ section.now) }
        ensures limit { IfOk result (λ tables. IsWithinLimit tables) }
        ensures stays { IfOk result (λ tables. All (IsCachedOrTooLarge tables) units.now) }
    {
        let mut tables = Tables {
            lists: LinkedLists::new(alloc, section)?,
            store: TableStore::new(alloc, section),
        };
        let mut left = DECLARATIONS_LIMIT;
        for unit in units {
            tables.validate_unit(alloc, unit, &mut left)?;
        }
        Ok(tables)
    }

    /// Parses the table of a unit unless it is cached. Subtracts its declarations from `left`.
    #[tactic(auto, using(crate::proofs::IndexLaws::stays_parsed))]
    fn validate_unit(
        &mut self,
        alloc: Global,
        unit: &UnitHeader,
        left: &mut u64,
    ) -> Result<(), LoadFault>
        requires { left.old ≤ declarations_limit }
        ensures ok { IfOk result (λ _. (table : List Declaration)
            × (table_read left.old self.old.section unit.now ≡ Ok table)
            × (left.new + length table ≡ left.old)) }
        ensures err { Refuses result (table_read left.old self.old.section unit.now) }
        ensures section { self.new.section ≡ self.old.section }
        ensures limit { IsWithinLimit self.new }
        ensures unchanged { OnErr result (left.new ≡ left.old) }
        ensures stays { OnOk result (IsCachedOrTooLarge self.new unit.now) }
        ensures grows { OnOk result (StaysCached self.old self.new) }
    {
        if let Some(len) = self.cached_len(unit, *left) {
            *left -= len;
            return Ok(());
        }
        let number = self.add(alloc, unit, *left)?;
        *left -= self.store.table(number).table.len();
        Ok(())
    }

    /// Returns the number of declarations of the table of a unit, if the table is cached and has
    /// at most `left` declarations.
    #[tactic(auto, using(crate::proofs::TableLaws::parsed_again))]
    fn cached_len(&self, unit: &UnitHeader, left: u64) -> Option<u64>
        requires { left ≤ declarations_limit }
        ensures none { IfNone result ((table : List Declaration)
            → table_read left self.now.section unit.now ≡ Ok table
            → AreElsewhere unit.now.format unit.now.abbreviations self.now.tables) }
        ensures some { IfSome result (λ len. (table : List Declaration)
            × (table_read left self.now.section unit.now ≡ Ok table)
            × (length table ≡ len) × (len ≤ left)) }
        ensures stays { IfSome result (λ _. IsCachedOrTooLarge self.now unit.now) }
        ensures limit { IsWithinLimit self.now }
    {
        let number = self.store.find(unit)?;
        let len = self.store.table(number).table.len();
        if len > left {
            return None;
        }
        Some(len)
    }

    /// Returns whether the table at an index is the table of a unit.
    // Inlined: called for each scope and each reference.
    #[inline(always)]
    pub fn is_number_of(&self, unit: &UnitHeader, number: usize) -> bool
        ensures some { IsTrue result → IsNumberOf self.now.section unit.now self.now.tables number }
        ensures none { IsTableAt unit.now.format unit.now.abbreviations self.now.tables number
            → IsTrue result }
    {
        self.store.is_index(unit, number)
    }

    /// Returns the index of the table of a unit, which is valid until the next call. A table that
    /// is not cached is re-parsed and replaces the previous temporary table.
    // Not inlined: it is rare, and its code would slow down the caller.
    #[cold]
    #[inline(never)]
    pub fn number_of(&mut self, alloc: Global, unit: &UnitHeader) -> Result<usize, LoadFault>
        ensures ok { IfOk result (IsNumberOf self.old.section unit.now self.new.tables) }
        ensures err { Refuses result (table_read declarations_limit self.old.section unit.now) }
        ensures section { self.new.section ≡ self.old.section }
        ensures memoized { (number : ℕ) (table : Table)
            → slice_get self.old.tables number ≡ Some table
            → IsAt unit.now.format unit.now.abbreviations table
            → (result ≡ Ok number) × (self.new ≡ self.old) }
        ensures added { AreElsewhere unit.now.format unit.now.abbreviations self.old.tables
            → IfOk result (λ number. (table : Table)
            × (slice_get self.new.tables number ≡ Some table)
            × (self.new ≡ with_table self.old table)) }
        ensures limit { IsWithinLimit self.new }
    {
        if let Some(number) = self.store.find(unit) {
            return Ok(number);
        }
        self.add(alloc, unit, DECLARATIONS_LIMIT)
    }

    /// Returns the table at an index.
    // Inlined: called for each scope and each reference.
    #[inline(always)]
    pub fn table(&self, number: usize) -> UnitTable<'_>
        requires { number < length self.now.tables }
        ensures { slice_get self.now.tables number ≡ Some result }
    {
        UnitTable::new(self.store.table(number), &self.lists)
    }

    /// Returns whether the table at an index is cached permanently. A temporary table is replaced
    /// by the next one.
    pub fn stays(&self, number: usize) -> bool
        ensures { result ≡ nat_lt number self.now.permanent }
    {
        number < self.store.permanent
    }

    /// Parses the table of a unit, which must not be cached, and caches it. Returns its index. The
    /// table may have at most `budget` declarations.
    #[tactic(auto, using(crate::proofs::TableLaws::parsed_at))]
    fn add(&mut self, alloc: Global, unit: &UnitHeader, budget: u64) -> Result<usize, LoadFault>
        requires few { budget ≤ declarations_limit }
        requires new { (table : List Declaration)
            → table_read budget self.old.section unit.now ≡ Ok table
            → AreElsewhere unit.now.format unit.now.abbreviations self.old.tables }
        requires limit { IsWithinLimit self.old }
        ensures ok { IfOk result (λ number. IsAdded unit.now.format unit.now.abbreviations
            budget self.old self.new number) }
        ensures err { Refuses result (table_read budget self.old.section unit.now) }
        ensures section { self.new.section ≡ self.old.section }
        ensures limit { IsWithinLimit self.new }
    {
        let place = unit.abbreviations;
        let table = CachedTable::read(alloc, &mut self.lists, unit.format, place, budget)?;
        Ok(self.store.add(table)?)
    }
}

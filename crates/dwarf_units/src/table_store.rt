//! The cache of abbreviation tables, indexed by number.

ghost use Rattle.std.specs.Prelude.{◌≡◌, ◌<◌, [], Some, length, slice_get};
ghost use Rattle.std.specs.Prelude.{IsTrue, IfOk, IfNone, IfSome};
ghost use Rattle.dwarf_units.specs.{Private.Tables.IsIndexOf, Tables.{AreElsewhere, IsTableAt}};
ghost use Rattle.dwarf_units.specs.Tables.{IsCachedOrTooLarge, IsParsedFrom, IsWithinLimit};
ghost use Rattle.dwarf_units.specs.Tables.{with_table};

use crate::cached_table::{CachedTable, table_key};
use crate::unit_headers::UnitHeader;
use std::alloc::{AllocError, Global};
use std::collections::BTreeMap;
use std::marker::Model;

/// The cached tables that fit the budget, then at most one temporary table, the last that did not.
#[derive(Drop)]
pub(crate) struct TableStore<'a> {
    section: &'a [u8],
    tables: Vec<CachedTable<'a>>,
    /// The number of tables that are cached permanently. A table after them is temporary.
    pub(crate) permanent: usize,
    /// The total size of the tables that can still be cached permanently.
    budget: u128,
    /// The indexes of the tables by their keys. An entry may be stale: its index may have been
    /// reused for another table.
    numbers: BTreeMap<u128, usize>,
}

impl<'a> Model for TableStore<'a> {
    ghost use Rattle.dwarf_units.specs.{Private.Tables.AreCached, Tables.CachedTables};

    ghost Value = { CachedTables };

    ghost view = { λ s. record {
      section = s.section.now;
      tables = s.tables.items;
      permanent = s.permanent;
    } };

    ghost invariant = { λ s. AreCached s.section.now s.tables.items s.permanent s.budget
        s.numbers };
}

impl<'a> TableStore<'a> {
    pub(crate) fn new(alloc: Global, section: &'a [u8]) -> TableStore<'a>
        ensures { result ≡ record { section = section.now; tables = []; permanent = 0 } }
    {
        TableStore {
            section,
            tables: Vec::new(alloc),
            permanent: 0,
            budget: section.len() as u128 + 65_536,
            numbers: BTreeMap::new(alloc),
        }
    }

    /// Returns the table at an index.
    pub(crate) fn table(&self, number: usize) -> &CachedTable<'a>
        requires { number < length self.now.tables }
        ensures found { slice_get self.now.tables number ≡ Some result.now }
        ensures section { result.now.section ≡ self.now.section }
    {
        &self.tables[number]
    }

    /// Returns the index of the table of a unit, if it is cached.
    pub(crate) fn find(&self, unit: &UnitHeader) -> Option<usize>
        ensures none { IfNone result (AreElsewhere unit.now.format unit.now.abbreviations
            self.now.tables) }
        ensures some { IfSome result (IsIndexOf self.now unit.now) }
        ensures stays { IfSome result (λ _. IsCachedOrTooLarge self.now unit.now) }
        ensures limit { IsWithinLimit self.now }
    {
        let key = table_key(unit.format, unit.abbreviations);
        let number = self.numbers.get(&key).copied()?;
        if self.is_index(unit, number) {
            return Some(number);
        }
        None
    }

    /// Returns whether the table at an index is the table of a unit.
    // Inlined: called for each scope and each reference.
    #[inline(always)]
    pub(crate) fn is_index(&self, unit: &UnitHeader, number: usize) -> bool
        ensures some { IsTrue result → IsIndexOf self.now unit.now number }
        ensures stays { IsTrue result → IsCachedOrTooLarge self.now unit.now }
        ensures none { IsTableAt unit.now.format unit.now.abbreviations self.now.tables number
            → IsTrue result }
        ensures limit { IsWithinLimit self.now }
    {
        let Some(table) = self.tables.get(number) else {
            return false;
        };
        table.is_of(unit)
    }

    /// Caches a table and returns its index. A table that exceeds the budget is cached only until
    /// the next table is added.
    pub(crate) fn add(&mut self, table: CachedTable<'a>) -> Result<usize, AllocError>
        requires parsed { IsParsedFrom self.old.section table }
        requires new { AreElsewhere table.format table.offset self.old.tables }
        ensures added { IfOk result (λ number. (self.new ≡ with_table self.old table.entry)
            × (slice_get self.new.tables number ≡ Some table.entry)) }
        ensures section { self.new.section ≡ self.old.section }
        ensures limit { IsWithinLimit self.new }
    {
        let size = table.table.size();
        self.numbers.insert(table.key(), self.permanent)?;
        self.tables.truncate(self.permanent);
        let number = self.tables.len();
        self.tables.push(table)?;
        if size <= self.budget {
            self.budget -= size;
            self.permanent = self.tables.len();
        }
        Ok(number)
    }
}

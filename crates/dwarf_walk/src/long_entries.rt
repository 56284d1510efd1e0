//! The cache of long entries. Each is read at most twice, however many references it has.

ghost use Rattle.std.specs.Prelude.{◌≡◌, ◌==◌, ◌↔◌, None, Some, IfSome, IsTrue, OnOk, OnErr};
ghost use Rattle.std.specs.Prelude.{if◌then◌else◌};
ghost use Rattle.dwarf_walk.specs.declared.unit_entries.NamedEntry.{NamedEntry as Named};
ghost use Rattle.dwarf_walk.specs.LongEntries.{cached_at, long_entry};

use crate::unit_entries::NamedEntry;
use dwarf_bytes::Format;
use dwarf_units::UnitHeader;
use std::alloc::{AllocError, Global};
use std::collections::BTreeMap;

/// The names and the reference of an entry, with the properties of the unit that they depend on.
#[derive(Clone, Copy)]
pub(crate) struct LongEntry {
    format: Format,
    abbreviations: u64,
    end: usize,
    entry: NamedEntry,
}

/// The cached entries by offset.
#[derive(Drop)]
pub(crate) struct LongEntries {
    cached: BTreeMap<usize, LongEntry>,
}

impl LongEntry {
    /// Returns whether the entry was read in a unit with the same format, table and end as
    /// `header`.
    fn is_in(&self, header: &UnitHeader) -> bool
        ensures { IsTrue result ↔ ((self.now.format ≡ header.now.format)
            × (self.now.abbreviations ≡ header.now.abbreviations)
            × (self.now.«end» ≡ header.now.«end»)) }
    {
        self.format == header.format
            && self.abbreviations == header.abbreviations
            && self.end == header.end
    }
}

impl LongEntries {
    pub(crate) fn new(alloc: Global) -> LongEntries
        ensures { (offset : _) → cached_at result offset ≡ None }
    {
        LongEntries {
            cached: BTreeMap::new(alloc),
        }
    }

    /// Returns the cached entry at an offset, if it was read in a unit like that of `header`.
    pub(crate) fn get(&self, header: &UnitHeader, offset: usize) -> Option<NamedEntry>
        ensures some { IfSome result (λ entry.
            cached_at self.now offset ≡ Some (long_entry header.now entry)) }
        ensures found { (entry : Named) → cached_at self.now offset
            ≡ Some (long_entry header.now entry) → result ≡ Some entry }
    {
        let cached = self.cached.get(&offset)?;
        if cached.is_in(header) {
            return Some(cached.entry);
        }
        None
    }

    /// Caches the entry at an offset, in the unit of `header`.
    pub(crate) fn insert(
        &mut self,
        header: &UnitHeader,
        offset: usize,
        entry: NamedEntry,
    ) -> Result<(), AllocError>
        ensures ok { OnOk result ((at : _) → cached_at self.new at
            ≡ if at == offset then Some (long_entry header.now entry) else cached_at self.old at) }
        ensures err { OnErr result ((at : _) → cached_at self.new at ≡ cached_at self.old at) }
    {
        let cached = LongEntry {
            format: header.format,
            abbreviations: header.abbreviations,
            end: header.end,
            entry,
        };
        self.cached.insert(offset, cached)?;
        Ok(())
    }
}

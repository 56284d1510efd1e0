//! Re-reading of entries at their offsets.

ghost use Rattle.std.specs.Prelude.{◌≡◌, ◌<◌, ◌≤◌, ◌==◌, ◌⊎◌, ℕ, true, if◌then◌else◌, List, Some};
ghost use Rattle.std.specs.Prelude.{Ok, OnOk, take};
ghost use Rattle.dwarf_bytes.specs.Refusals.{Gives};
ghost use Rattle.dwarf_forms.specs.{Declarations.Declaration, Tables.declarations_of};
ghost use Rattle.dwarf_units.specs.Units.{declarations_limit};
ghost use Rattle.dwarf_walk.specs.declared.unit_entries.NamedEntry.{NamedEntry as Named};
ghost use Rattle.dwarf_walk.specs.Sections.{Sections as SectionBytes, sections_of};
ghost use Rattle.dwarf_walk.specs.{EntryBitmap.has_entry, LongEntries.{cached_at, long_entry}};
ghost use Rattle.dwarf_walk.specs.{NamedEntries.named_entry_at, Rereading.GivesNames};
ghost use Rattle.dwarf_walk.specs.Rereading.{HasPermanentTable, HasTableOf, IsCachedAt, IsReaderOf};
ghost use Rattle.dwarf_walk.specs.Rereading.{IsShort, cached_by, len_at, scope_entry_at};
ghost use Rattle.dwarf_bytes.specs.declared.fault.Cause.TheVariants as causes;

use crate::entry_bitmap::EntryBitmap;
use crate::long_entries::LongEntries;
use crate::scope_kind::kind_of;
use crate::sections::Sections;
use crate::unit_entries::{NamedEntry, ScopeEntry, UnitEntries};
use dwarf_bytes::Cause;
use dwarf_units::{Tables, UsedAttributes};
use std::alloc::{AllocError, Global};

/// The size in bytes above which an entry is cached, not re-read for each reference to it.
const LONG: usize = 256;

/// Re-reads entries of units with the cached tables. Offsets are relative to `.debug_info`.
#[derive(Drop)]
pub struct EntryReader<'a> {
    pub(crate) alloc: Global,
    pub(crate) info: &'a [u8],
    /// The abbreviation tables of the units.
    pub tables: Tables<'a>,
    /// The index of the selected table.
    pub(crate) number: usize,
    /// The used attributes of the entry that was read last.
    pub(crate) found: UsedAttributes,
    /// The size in bytes of that entry.
    pub(crate) len: usize,
    /// The cached results for long entries: their names and references.
    pub(crate) long: LongEntries,
}

impl<'a> EntryReader<'a> {
    /// Creates a reader of the entries in `sections`. `tables` must be the tables of its units.
    pub fn new(alloc: Global, sections: &Sections<'a>, tables: Tables<'a>) -> EntryReader<'a>
        requires { tables.section ≡ sections.now.debug_abbrev.now }
        ensures { IsReaderOf (sections_of sections.now) result }
    {
        EntryReader {
            alloc,
            info: sections.debug_info,
            tables,
            number: 0,
            found: UsedAttributes::none(),
            len: 0,
            long: LongEntries::new(alloc),
        }
    }

    /// Re-reads the scope at an offset in a unit. Fails with `Cause::Reference` if none is there.
    pub fn scope(&mut self, unit: &UnitEntries, offset: usize) -> Result<ScopeEntry, Cause>
        ensures scope { (s : SectionBytes) (table : List Declaration) → IsReaderOf s self.old
            → declarations_of declarations_limit s.debug_abbrev unit.now.header.abbreviations
            ≡ Ok table → Gives (λ entry. entry) result (scope_entry_at unit.now.header.format table
            (take unit.now.header.«end» s.debug_info) offset) }
        ensures reader { (s : SectionBytes) → IsReaderOf s self.old → IsReaderOf s self.new }
    {
        self.select_table(&unit.header, unit.table)?;
        if let Some(entry) = self.fixed_size_entry(&unit.header, offset) {
            let kind = kind_of(entry.tag).ok_or(Cause::Reference)?;
            return Ok(ScopeEntry::of(offset, kind, &entry.values));
        }
        let tag = self.entry(&unit.header, offset)?;
        let kind = kind_of(tag).ok_or(Cause::Reference)?;
        Ok(ScopeEntry::of(offset, kind, &self.found))
    }

    /// Returns the names and the reference of the entry at an offset in a unit. A long entry is
    /// cached when it is first read. If the table of the unit is not cached permanently, the first
    /// read caches all entries of the unit whose offsets are in `bitmap`.
    // Inlined: called for each reference.
    #[inline(always)]
    pub fn names_at(
        &mut self,
        unit: &UnitEntries,
        bitmap: &EntryBitmap,
        offset: usize,
    ) -> Result<NamedEntry, Cause>
        ensures holds { OnOk result ((s : SectionBytes) (table : List Declaration)
            → IsReaderOf s self.old
            → declarations_of declarations_limit s.debug_abbrev unit.now.header.abbreviations
            ≡ Ok table → unit.now.header.first ≤ offset → offset < unit.now.header.«end»
            → has_entry bitmap.now offset ≡ true → IsCachedAt s unit.now.header self.new offset
            ⊎ (HasPermanentTable unit.now.header self.new × IsShort unit.now.header.format table
            (take unit.now.header.«end» s.debug_info) offset)) }
        ensures cached { (entry : Named)
            → cached_by self.old offset ≡ Some (long_entry unit.now.header entry)
            → (result ≡ Ok entry) × (self.new ≡ self.old) }
        ensures names_at { GivesNames unit.now.header offset self.old result }
        ensures reader { (s : SectionBytes) → IsReaderOf s self.old → IsReaderOf s self.new }
    {
        if let Some(entry) = self.long.get(&unit.header, offset) {
            return Ok(entry);
        }
        let entry = self.reread_names(unit, offset)?;
        if !self.tables.stays(self.number) {
            self.cache_unit(unit, bitmap)?;
        } else if self.len > LONG {
            self.cache_entry(unit, offset)?;
        }
        Ok(entry)
    }

    /// Caches the entries of a unit whose offsets are in `bitmap`. Unreadable entries are skipped.
    #[cold]
    #[inline(never)]
    fn cache_unit(&mut self, unit: &UnitEntries, bitmap: &EntryBitmap) -> Result<(), AllocError>
        ensures reader { (s : SectionBytes) → IsReaderOf s self.old → IsReaderOf s self.new }
        ensures cached { OnOk result ((s : SectionBytes) (at : ℕ) → IsReaderOf s self.old
            → unit.now.header.first ≤ at → at < unit.now.header.«end»
            → has_entry bitmap.now at ≡ true → IsCachedAt s unit.now.header self.new at) }
    {
        for offset in unit.header.first..unit.header.end {
            if bitmap.has_entry(offset) {
                self.cache_entry(unit, offset)?;
            }
        }
        Ok(())
    }

    /// Re-reads and caches the entry at an offset. An entry that cannot be read is skipped.
    #[cold]
    #[inline(never)]
    fn cache_entry(&mut self, unit: &UnitEntries, offset: usize) -> Result<(), AllocError>
        ensures reader { (s : SectionBytes) → IsReaderOf s self.old → IsReaderOf s self.new }
        ensures cached { OnOk result ((s : SectionBytes) → IsReaderOf s self.old
            → IsCachedAt s unit.now.header self.new offset) }
        ensures others { OnOk result ((at : ℕ) → (at ≡ offset → ⊥)
            → cached_at self.new.long at ≡ cached_at self.old.long at) }
    {
        match self.reread_names(unit, offset) {
            Ok(entry) => {
                self.long.insert(&unit.header, offset, entry)?;
                Ok(())
            }
            Err(cause) => {
                refuse_memory(cause)?;
                Ok(())
            }
        }
    }

    /// Re-reads the names and the reference of an entry without using the cache.
    // Inlined: called for each reference.
    #[inline(always)]
    fn reread_names(&mut self, unit: &UnitEntries, offset: usize) -> Result<NamedEntry, Cause>
        ensures names_at { GivesNames unit.now.header offset self.old result }
        ensures reader { (s : SectionBytes) → IsReaderOf s self.old → IsReaderOf s self.new }
        ensures long { self.new.long ≡ self.old.long }
        ensures number { OnOk result (HasTableOf unit.now.header self.new) }
        ensures len { OnOk result ((s : SectionBytes) (table : List Declaration)
            → IsReaderOf s self.old
            → declarations_of declarations_limit s.debug_abbrev unit.now.header.abbreviations
            ≡ Ok table → len_at unit.now.header.format table
            (take unit.now.header.«end» s.debug_info) offset ≡ Ok self.new.len) }
    {
        self.select_table(&unit.header, unit.table)?;
        if let Some(entry) = self.fixed_size_entry(&unit.header, offset) {
            let len = entry.after.saturating_sub(offset);
            let names = NamedEntry::of(offset, &entry.values);
            self.len = len;
            return Ok(names);
        }
        self.entry(&unit.header, offset)?;
        Ok(NamedEntry::of(offset, &self.found))
    }
}

/// Returns an error if the cause is an allocation failure, and ignores all other causes.
fn refuse_memory(cause: Cause) -> Result<(), AllocError>
    ensures { OnOk result (cause ≡ causes.Memory → ⊥) }
{
    match cause {
        Cause::Memory => Err(AllocError),
        _ => Ok(()),
    }
}

//! Reading the entry at an offset of a unit.

ghost use Rattle.std.specs.Prelude.{◌≡◌, ◌-◌, List, Ok, OnOk, IfErr, IfSome, take};
ghost use Rattle.dwarf_forms.specs.{Declarations.Declaration, Tables.declarations_of};
ghost use Rattle.dwarf_units.specs.Units.{declarations_limit};
ghost use Rattle.dwarf_walk.specs.Rereading.{HasTableOf, ReturnsAndStores, len_at};
ghost use Rattle.dwarf_walk.specs.NamedEntries.{used_by_name_at};
ghost use Rattle.dwarf_bytes.specs.declared.fault.Cause.TheVariants as causes;

use crate::entry_reader::EntryReader;
use crate::walk::unit_bytes;
use dwarf_bytes::{Cause, Cursor};
use dwarf_units::{FixedSizeEntry, UnitHeader};

impl<'a> EntryReader<'a> {
    /// Selects the table of the unit of `header`. Tries the index `guess` first. A table that is no
    /// longer cached is re-parsed.
    // Inlined: called for each scope and each reference.
    #[inline(always)]
    pub(crate) fn select_table(&mut self, header: &UnitHeader, guess: usize) -> Result<(), Cause>
        ensures selected { OnOk result (HasTableOf header.now self.new) }
        ensures memory { IfErr result (λ cause. (table : List Declaration) → declarations_of
            declarations_limit self.old.tables.section header.now.abbreviations ≡ Ok table
            → cause ≡ causes.Memory) }
        ensures section { self.new.tables.section ≡ self.old.tables.section }
        ensures info { self.new.info.now ≡ self.old.info.now }
        ensures long { self.new.long ≡ self.old.long }
    {
        if self.tables.is_number_of(header, guess) {
            self.number = guess;
            return Ok(());
        }
        match self.tables.number_of(self.alloc, header) {
            Ok(number) => {
                self.number = number;
                Ok(())
            }
            Err(fault) => Err(fault.cause),
        }
    }

    /// Returns the entry at an offset in the unit of `header`, if all of its attributes have a
    /// fixed size. The table of the unit must be selected.
    // Inlined: called for each scope and each reference.
    #[inline(always)]
    pub(crate) fn fixed_size_entry(
        &self,
        header: &UnitHeader,
        offset: usize,
    ) -> Option<FixedSizeEntry<'_>>
        requires { HasTableOf header.now self.now }
        ensures entry { IfSome result (λ entry. (table : List Declaration) → declarations_of
            declarations_limit self.now.tables.section header.now.abbreviations ≡ Ok table
            → used_by_name_at header.now.format table (take header.now.«end» self.now.info.now)
            offset ≡ Ok (entry.tag, entry.values)) }
        ensures len { IfSome result (λ entry. (table : List Declaration) → declarations_of
            declarations_limit self.now.tables.section header.now.abbreviations ≡ Ok table
            → len_at header.now.format table (take header.now.«end» self.now.info.now) offset
            ≡ Ok (entry.after - offset)) }
    {
        let table = self.tables.table(self.number);
        table.fixed_size_entry(unit_bytes(self.info, header), offset)
    }

    /// Reads the entry at an offset in the unit of `header` into `found`, and returns its tag. The
    /// table of the unit must be selected.
    // Not inlined: it is rare, and its code would slow down the caller.
    #[cold]
    #[inline(never)]
    pub(crate) fn entry(&mut self, header: &UnitHeader, offset: usize) -> Result<u64, Cause>
        requires { HasTableOf header.now self.old }
        ensures entry { (table : List Declaration) → declarations_of declarations_limit
            self.old.tables.section header.now.abbreviations ≡ Ok table
            → ReturnsAndStores result self.new.found (used_by_name_at header.now.format table
            (take header.now.«end» self.old.info.now) offset) }
        ensures table { (self.new.tables ≡ self.old.tables) × (self.new.number ≡ self.old.number) }
        ensures info { self.new.info.now ≡ self.old.info.now }
        ensures long { self.new.long ≡ self.old.long }
        ensures len { OnOk result ((table : List Declaration) → declarations_of declarations_limit
            self.old.tables.section header.now.abbreviations ≡ Ok table
            → len_at header.now.format table (take header.now.«end» self.old.info.now) offset
            ≡ Ok self.new.len) }
    {
        let mut cursor = Cursor::new(unit_bytes(self.info, header));
        cursor.seek(offset)?;
        let table = self.tables.table(self.number);
        let tag = table.read_entry(&mut cursor, &mut self.found)?;
        self.len = cursor.place().saturating_sub(offset);
        Ok(tag)
    }
}

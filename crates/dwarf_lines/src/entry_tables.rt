//! A reader for the directory table and the file table of a program header.

ghost use Rattle.std.specs.Prelude.{◌≡◌, ◌<◌, true};
ghost use Rattle.dwarf_bytes.specs.Refusals.{ReadsField, ReadsItems};
ghost use Rattle.dwarf_lines.specs.Formats.{is_format};
ghost use Rattle.dwarf_lines.specs.Private.Readers.{field_by, fields_by, entry_by, entries_by};
ghost use Rattle.dwarf_lines.specs.Private.Readers.{table_by};

use crate::entries::{Entry, IndexedSections, directory_index, path, skip_value};
use crate::formats::{EntryTable, Field, fields_with_bytes, format};
use dwarf_bytes::{Cause, Cursor, Format};
use std::alloc::Global;

/// The context of an entry: its sections, its format and its table.
#[derive(Clone, Copy, Drop)]
pub struct FileTableReader<'a> {
    pub sections: IndexedSections<'a>,
    pub format: Format,
    pub table: EntryTable,
}

impl FileTableReader<'_> {
    /// Reads one field into the entry.
    #[tactic(auto, unfolding(crate::specs::Entries::field_at))]
    fn with_field(&self, field: Field, entry: Entry, cursor: &mut Cursor) -> Result<Entry, Cause>
        ensures { ReadsField (λ entry. entry) result (field_by self.now field entry) cursor.old
            cursor.new }
    {
        if field.is_path() {
            let path = path(self.sections, self.format, field.form, cursor)?;
            return Ok(Entry { path, ..entry });
        }
        if self.table.is_index(field) {
            let directory = directory_index(field.form, cursor)?;
            return Ok(Entry { directory, ..entry });
        }
        skip_value(self.format, field.form, cursor)?;
        Ok(entry)
    }

    /// Reads the fields of an entry.
    fn fields(&self, fields: &[Field], cursor: &mut Cursor) -> Result<Entry, Cause>
        ensures { ReadsField (λ entry. entry) result (fields_by self.now fields.now) cursor.old
            cursor.new }
    {
        let mut entry = Entry::new();
        for field in fields {
            entry = self.with_field(*field, entry, cursor)?;
        }
        Ok(entry)
    }

    /// Reads an entry. Returns `DirIndex` if its directory does not exist.
    #[tactic(auto, unfolding(crate::specs::Entries::entry_at))]
    fn entry(&self, fields: &[Field], cursor: &mut Cursor) -> Result<Entry, Cause>
        ensures { ReadsField (λ entry. entry) result (entry_by self.now fields.now) cursor.old
            cursor.new }
    {
        let entry = self.fields(fields, cursor)?;
        if !entry.has_directory(self.table) {
            return Err(Cause::DirIndex);
        }
        Ok(entry)
    }

    /// Reads `count` entries with these fields.
    fn entries_by(
        &self,
        alloc: Global,
        fields: &[Field],
        count: u64,
        cursor: &mut Cursor,
    ) -> Result<Vec<Entry>, Cause>
        ensures { ReadsItems result (entries_by self.now fields.now count) cursor.old cursor.new }
    {
        let mut entries = Vec::new(alloc);
        for _ in 0..count {
            entries.push(self.entry(fields, cursor)?)?;
        }
        Ok(entries)
    }

    /// Reads `count` entries after the format is validated. Fields without bytes are not read.
    fn entries(
        &self,
        alloc: Global,
        fields: Vec<Field>,
        count: u64,
        cursor: &mut Cursor,
    ) -> Result<Vec<Entry>, Cause>
        requires { 0 < count → is_format self.now.table fields.items ≡ true }
        ensures { ReadsItems result (entries_by self.now fields.items count) cursor.old cursor.new }
    {
        let fields = fields_with_bytes(fields);
        self.entries_by(alloc, fields.as_slice(), count, cursor)
    }

    /// Reads the table at the cursor.
    #[tactic(auto, unfolding(crate::specs::Entries::table_at))]
    pub fn table(&self, alloc: Global, cursor: &mut Cursor) -> Result<Vec<Entry>, Cause>
        ensures { ReadsItems result (table_by self.now) cursor.old cursor.new }
    {
        let format_count = cursor.u8()?;
        let fields = format(alloc, format_count, cursor)?;
        let count = cursor.uleb()?;
        if count != 0 && !self.table.accepts(fields.as_slice()) {
            return Err(Cause::FileFormat);
        }
        self.entries(alloc, fields, count, cursor)
    }
}

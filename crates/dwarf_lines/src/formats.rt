//! The entry formats of the directory table and the file table.

ghost use Rattle.std.specs.Prelude.{◌≡◌, count_by, filter};
ghost use Rattle.std.specs.List.{list_all};
ghost use Rattle.dwarf_bytes.specs.Refusals.{ReadsField, ReadsItems};
ghost use Rattle.dwarf_lines.specs.Entries.{format_at, repeated_at};
ghost use Rattle.dwarf_lines.specs.Formats.{is_path, is_index, is_text_form, is_index_form};
ghost use Rattle.dwarf_lines.specs.Formats.{layout_of, has_valid_form, is_format};
ghost use Rattle.dwarf_lines.specs.Private.Readers.{has_bytes};

use dwarf_bytes::constants::{
    DW_FORM_DATA1, DW_FORM_DATA2, DW_FORM_FLAG_PRESENT, DW_FORM_LINE_STRP, DW_FORM_STRING,
    DW_FORM_STRP, DW_FORM_UDATA, DW_LNCT_DIRECTORY_INDEX, DW_LNCT_PATH,
};
use dwarf_bytes::{Cause, Cursor, Form, ValueLayout};
use std::alloc::Global;

/// A field of the entries of a table: its content type and its form (DWARF 5, 6.2.4.1).
#[derive(Clone, Copy)]
pub struct Field {
    pub content: u64,
    pub form: u64,
}

/// The directory table or the file table of a header (DWARF 5, 6.2.4).
#[derive(Clone, Copy)]
pub enum EntryTable {
    Directories,
    /// The file table, with the number of directories.
    Files(u64),
}

/// Returns the layout of a form's values, or `None` if they are not directly in the entry.
pub fn layout_of(form: u64) -> Option<ValueLayout>
    ensures { result ≡ layout_of form }
{
    match Form::of(form) {
        Some(Form::Direct(layout)) => Some(layout),
        _ => None,
    }
}

impl Field {
    /// Returns whether the field is a path.
    pub fn is_path(self) -> bool
        ensures { result ≡ is_path self }
    {
        self.content == DW_LNCT_PATH
    }

    fn has_text_form(self) -> bool
        ensures { result ≡ is_text_form self.form }
    {
        matches!(self.form, DW_FORM_STRING | DW_FORM_STRP | DW_FORM_LINE_STRP)
    }

    fn has_index_form(self) -> bool
        ensures { result ≡ is_index_form self.form }
    {
        matches!(self.form, DW_FORM_DATA1 | DW_FORM_DATA2 | DW_FORM_UDATA)
    }

    /// Returns whether the field's values have bytes. DW_FORM_flag_present has none.
    fn has_bytes(self) -> bool
        ensures { result ≡ has_bytes self }
    {
        self.form != DW_FORM_FLAG_PRESENT
    }

    /// Reads a field of a format.
    #[tactic(auto, unfolding(crate::specs::Entries::format_at))]
    fn read(cursor: &mut Cursor) -> Result<Field, Cause>
        ensures { ReadsField (λ field. field) result format_at cursor.old cursor.new }
    {
        let content = cursor.uleb()?;
        let form = cursor.uleb()?;
        Ok(Field { content, form })
    }
}

impl EntryTable {
    /// Returns whether a field is the directory index of a file.
    pub fn is_index(self, field: Field) -> bool
        ensures { result ≡ is_index self field }
    {
        match self {
            EntryTable::Directories => false,
            EntryTable::Files(_) => field.content == DW_LNCT_DIRECTORY_INDEX,
        }
    }

    fn has_valid_form(self, field: Field) -> bool
        ensures { result ≡ has_valid_form self field }
    {
        if field.is_path() {
            field.has_text_form()
        } else if self.is_index(field) {
            field.has_index_form()
        } else {
            layout_of(field.form).is_some()
        }
    }

    /// Returns whether the table may have this format.
    pub fn accepts(self, fields: &[Field]) -> bool
        ensures { result ≡ is_format self fields.now }
    {
        count_of_paths(fields) == 1
            && self.count_of_indexes(fields) <= 1
            && self.has_valid_forms(fields)
    }

    fn count_of_indexes(self, fields: &[Field]) -> usize
        ensures { result ≡ count_by (is_index self) fields.now }
    {
        fields.iter().filter(|field| self.is_index(**field)).count()
    }

    fn has_valid_forms(self, fields: &[Field]) -> bool
        ensures { result ≡ list_all (has_valid_form self) fields.now }
    {
        fields.iter().all(|field| self.has_valid_form(*field))
    }
}

fn count_of_paths(fields: &[Field]) -> usize
    ensures { result ≡ count_by is_path fields.now }
{
    fields.iter().filter(|field| field.is_path()).count()
}

/// Removes the fields without bytes, which need not be read. Each of the others has at least one
/// byte in every entry.
pub fn fields_with_bytes(mut fields: Vec<Field>) -> Vec<Field>
    ensures { result.items ≡ filter has_bytes fields.items }
{
    fields.retain(|field| field.has_bytes());
    fields
}

/// Reads the format of a table, which has `count` fields.
pub fn format(alloc: Global, count: u8, cursor: &mut Cursor) -> Result<Vec<Field>, Cause>
    ensures { ReadsItems result (repeated_at format_at count) cursor.old cursor.new }
{
    let mut fields = Vec::new(alloc);
    for _ in 0..count {
        fields.push(Field::read(cursor)?)?;
    }
    Ok(fields)
}

//! The entries of the directory table and the file table.

ghost use Rattle.std.specs.Prelude.{◌≡◌, ◌==◌, slice_index, length};
ghost use Rattle.dwarf_bytes.specs.Refusals.{ReadsField, ReadsPlace};
ghost use Rattle.dwarf_lines.specs.Entries.{text_from, text_here, text_by_offset, path_at};
ghost use Rattle.dwarf_lines.specs.Entries.{index_at, after_value, no_entry, has_directory};
ghost use Rattle.dwarf_lines.specs.Private.Readers.{sections_of};

use crate::formats::{EntryTable, layout_of};
use dwarf_bytes::constants::{DW_FORM_DATA1, DW_FORM_DATA2, DW_FORM_STRING, DW_FORM_STRP};
use dwarf_bytes::{Cause, Content, Cursor, Format, Section, Span, Text, TextIndex};

/// The string of a path.
#[derive(Clone, Copy)]
pub struct PathText {
    pub part: Text,
    /// Whether it starts with a slash.
    pub absolute: bool,
}

/// A directory, or a file and its directory index.
#[derive(Clone, Copy)]
pub struct Entry {
    pub path: PathText,
    pub directory: u64,
}

/// `.debug_line`, and the indexed string sections that it refers to by offset.
#[derive(Clone, Copy, Drop)]
pub struct IndexedSections<'a> {
    pub line: &'a [u8],
    pub line_str: &'a TextIndex<'a>,
    pub str: &'a TextIndex<'a>,
}

/// Returns the location of a string.
fn text_of(section: Section, place: usize, text: &[u8]) -> PathText
    ensures { result ≡ text_from section place text.now }
{
    PathText {
        part: Text {
            section,
            span: Span {
                place,
                len: text.len(),
            },
        },
        absolute: match text.first() {
            Some(byte) => *byte == b'/',
            None => false,
        },
    }
}

/// Reads the string at the cursor.
fn text_in_place(cursor: &mut Cursor) -> Result<PathText, Cause>
    ensures { ReadsField (λ text. text) result text_here cursor.old cursor.new }
{
    let place = cursor.place();
    let text = cursor.cstr()?;
    Ok(text_of(Section::DebugLine, place, text))
}

/// Reads an offset at the cursor, and returns the string of `section` at that offset.
fn text_elsewhere(
    section: Section,
    texts: &TextIndex,
    format: Format,
    cursor: &mut Cursor,
) -> Result<PathText, Cause>
    ensures { ReadsField (λ text. text) result (text_by_offset format section texts.now)
        cursor.old cursor.new }
{
    let place = cursor.offset(format)?;
    let text = texts.text_at(place)?;
    Ok(text_of(section, place as usize, text))
}

/// Reads a path with a form.
pub fn path(
    sections: IndexedSections,
    format: Format,
    form: u64,
    cursor: &mut Cursor,
) -> Result<PathText, Cause>
    ensures { ReadsField (λ text. text) result (path_at (sections_of sections.entry) format form)
        cursor.old cursor.new }
{
    match form {
        DW_FORM_STRING => text_in_place(cursor),
        DW_FORM_STRP => text_elsewhere(Section::DebugStr, sections.str, format, cursor),
        _ => text_elsewhere(Section::DebugLineStr, sections.line_str, format, cursor),
    }
}

/// Skips a value with a form.
pub fn skip_value(format: Format, form: u64, cursor: &mut Cursor) -> Result<(), Cause>
    ensures { ReadsPlace result (after_value format form) cursor.old cursor.new }
{
    let Some(layout) = layout_of(form) else {
        return Err(Cause::FileFormat);
    };
    let _ = Content::read(layout, format, cursor)?;
    Ok(())
}

/// Reads a directory index with a form.
pub fn directory_index(form: u64, cursor: &mut Cursor) -> Result<u64, Cause>
    ensures { ReadsField (λ index. index) result (index_at form) cursor.old cursor.new }
{
    match form {
        DW_FORM_DATA1 => Ok(u64::from(cursor.u8()?)),
        DW_FORM_DATA2 => Ok(u64::from(cursor.u16()?)),
        _ => Ok(cursor.uleb()?),
    }
}

impl Entry {
    /// Returns an entry without fields: an empty path, and directory 0.
    pub fn new() -> Entry
        ensures { result ≡ no_entry }
    {
        Entry {
            path: text_of(Section::DebugLine, 0, &[]),
            directory: 0,
        }
    }

    /// Returns whether the entry's directory index is within the directory table.
    pub fn has_directory(&self, table: EntryTable) -> bool
        ensures { result ≡ has_directory table self.now }
    {
        match table {
            EntryTable::Directories => true,
            EntryTable::Files(directories) => self.directory < directories,
        }
    }
}

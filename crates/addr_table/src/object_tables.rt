//! The strings, paths and lines of frames.

ghost use Rattle.std.specs.Prelude.{◌≡◌, ◌==◌, false, option_map, slice_get};
ghost use Rattle.std.specs.Option.{option_and_then, option_map_or};
ghost use Rattle.std.specs.List.{join_with_byte};
ghost use Rattle.dwarf_bytes.specs.Elf.{layout};
ghost use Rattle.dwarf_entries.specs.Order.{AreInOrder};
ghost use Rattle.addr_table.specs.Frames.{text_section, text_bytes, file_path};
ghost use Rattle.addr_table.specs.Private.Views.{is_empty_name, optional_row_site, site_view};
ghost use Rattle.addr_table.specs.declared.object_tables.FrameSite.TheVariants.{Call};

use crate::path::Path;
use crate::scopes::{count, scope_at};
use dwarf_bytes::{Layout, Section, text_at};
use dwarf_entries::{Scopes, TextOffset};
use dwarf_lines::{LineTables, ProgramNo, Row};

/// The size of a cache line in bytes.
const CACHE_LINE: usize = 64;

/// An object, with the tables in which its strings and files are looked up.
#[derive(Clone, Copy)]
pub struct ObjectTables<'a> {
    pub bytes: &'a [u8],
    pub sections: &'a Layout,
    pub lines: &'a LineTables,
    pub scopes: &'a Scopes,
    pub ghost place_of: { sections.now ≡ layout bytes.now },
}

/// The site of a frame: the row of an address, if there is one, or the call site of the scope with
/// this index.
#[derive(Clone, Copy)]
pub enum FrameSite {
    Row(Option<Row>),
    Call(usize),
}

impl<'a> ObjectTables<'a> {
    /// Returns the section that contains a string.
    fn section(self, section: Section) -> &'a [u8]
        ensures { result.now ≡ text_section self.entry.bytes.now section }
    {
        match section {
            Section::DebugStr => self.sections.debug_str.of(self.bytes),
            Section::DebugLineStr => self.sections.debug_line_str.of(self.bytes),
            _ => self.sections.debug_info.of(self.bytes),
        }
    }

    /// Returns the bytes of a string, up to its NUL.
    fn text(self, text: TextOffset) -> &'a [u8]
        ensures { result.now ≡ text_bytes self.entry.bytes.now text }
    {
        text_at(self.section(text.section), text.offset as u64).unwrap_or(&[])
    }

    /// Returns whether the scope with an index has an empty name.
    pub fn has_empty_name(self, number: usize) -> bool
        requires { AreInOrder self.scopes.now.scopes }
        ensures { result ≡ is_empty_name self.entry.bytes.now
            (option_and_then (λ s. s.name) (slice_get self.entry.scopes.now.scopes number)) }
    {
        if number >= count(self.scopes) {
            return false;
        }
        let Some(name) = scope_at(self.scopes, number).name() else {
            return false;
        };
        is_nul(self.section(name.section), name.offset)
    }

    /// Reads bytes of the name of the scope with an index, at most a cache line apart, so that the
    /// processor starts to fetch the name. Returns whether one of them is NUL.
    pub fn touch_name(self, number: usize) -> bool
        requires { AreInOrder self.scopes.now.scopes }
    {
        if number >= count(self.scopes) {
            return false;
        }
        let Some(name) = scope_at(self.scopes, number).name() else {
            return false;
        };
        let section = self.section(name.section);
        let next = name.offset.saturating_add(CACHE_LINE);
        is_nul(section, name.offset) | is_nul(section, next)
    }

    /// Reads bytes of the name of the scope with an index, as `touch_name` does, but up to four
    /// cache lines of it. Returns whether one of them is NUL.
    pub fn touch_long_name(self, number: usize) -> bool
        requires { AreInOrder self.scopes.now.scopes }
    {
        if number >= count(self.scopes) {
            return false;
        }
        let Some(name) = scope_at(self.scopes, number).name() else {
            return false;
        };
        let section = self.section(name.section);
        let third = name.offset.saturating_add(2 * CACHE_LINE);
        let fourth = name.offset.saturating_add(3 * CACHE_LINE);
        self.touch_name(number) | is_nul(section, third) | is_nul(section, fourth)
    }

    /// Reads the first range of the scope with an index. Returns whether it is empty.
    pub fn touch_range(self, number: usize) -> bool
        requires { AreInOrder self.scopes.now.scopes }
    {
        if number >= count(self.scopes) {
            return false;
        }
        let ranges = scope_at(self.scopes, number).ranges(self.scopes);
        ranges.first().is_some_and(|range| range.from == range.to)
    }

    /// Returns the name of the scope with an index.
    pub fn name(self, number: usize) -> Option<&'a [u8]>
        requires { AreInOrder self.scopes.now.scopes }
        ensures { option_map (λ text. text.now) result
            ≡ option_map (text_bytes self.entry.bytes.now)
            (option_and_then (λ s. s.name) (slice_get self.entry.scopes.now.scopes number)) }
    {
        if number >= count(self.scopes) {
            return None;
        }
        let text = scope_at(self.scopes, number).name()?;
        Some(self.text(text))
    }

    /// Returns the linkage name of the scope with an index.
    pub fn linkage(self, number: usize) -> Option<&'a [u8]>
        requires { AreInOrder self.scopes.now.scopes }
        ensures { option_map (λ text. text.now) result
            ≡ option_map (text_bytes self.entry.bytes.now)
            (option_and_then (λ s. s.linkage_name)
            (slice_get self.entry.scopes.now.scopes number)) }
    {
        if number >= count(self.scopes) {
            return None;
        }
        let text = scope_at(self.scopes, number).linkage_name()?;
        Some(self.text(text))
    }

    /// Returns the path of a file of a line program.
    // Inlined: called for each frame.
    #[inline(always)]
    fn file(self, program: ProgramNo, file: u64) -> Option<Path<'a>>
        ensures { option_map (join_with_byte 47) result ≡ file_path self.entry.bytes.now
            self.entry.lines.now program file }
    {
        let parts = self.lines.path(program, file)?;
        Some(Path::new(self.bytes, self.sections, &parts))
    }

    /// Returns the row with an index.
    pub fn row(self, number: Option<usize>) -> Option<Row>
        ensures { result ≡ option_and_then (slice_get self.entry.lines.now.rows) number }
    {
        self.lines.rows().get(number?).copied()
    }

    /// Returns the path of the file of a row.
    // Inlined: called for each frame.
    #[inline(always)]
    pub fn row_path(self, row: Option<Row>) -> Option<Path<'a>>
        ensures { option_map (join_with_byte 47) result
            ≡ (optional_row_site self.entry.bytes.now self.entry.lines.now row).path }
    {
        let row = row?;
        self.file(row.program, row.file)
    }

    /// Returns the line of a row; 0 if it is unknown.
    pub fn row_line(self, row: Option<Row>) -> u64
        ensures { result ≡ (optional_row_site self.entry.bytes.now self.entry.lines.now row).line }
    {
        match row {
            Some(row) => u64::from(row.line),
            None => 0,
        }
    }

    // Inlined: called for each frame.
    #[inline(always)]
    fn call_path(self, number: usize) -> Option<Path<'a>>
        requires { AreInOrder self.scopes.now.scopes }
        ensures { option_map (join_with_byte 47) result
            ≡ (site_view self.entry.bytes.now self.entry.lines.now self.entry.scopes.now.scopes
            (Call number)).path }
    {
        if number >= count(self.scopes) {
            return None;
        }
        let scope = scope_at(self.scopes, number);
        let start = scope.stmt_list(self.scopes)?;
        let file = scope.call_file(self.scopes)?;
        let program = self.lines.program_at(start)?;
        self.file(program, file)
    }

    fn call_line(self, number: usize) -> u64
        requires { AreInOrder self.scopes.now.scopes }
        ensures { result ≡ (site_view self.entry.bytes.now self.entry.lines.now
            self.entry.scopes.now.scopes (Call number)).line }
    {
        if number >= count(self.scopes) {
            return 0;
        }
        scope_at(self.scopes, number)
            .call_line(self.scopes)
            .unwrap_or(0)
    }

    /// Returns the path of the source file of a frame.
    // Inlined: called for each frame.
    #[inline(always)]
    pub fn path(self, site: FrameSite) -> Option<Path<'a>>
        requires { AreInOrder self.scopes.now.scopes }
        ensures { option_map (join_with_byte 47) result
            ≡ (site_view self.entry.bytes.now self.entry.lines.now self.entry.scopes.now.scopes
            site).path }
    {
        match site {
            FrameSite::Row(row) => self.row_path(row),
            FrameSite::Call(number) => self.call_path(number),
        }
    }

    /// Returns the source line of a frame; 0 if it is unknown.
    pub fn line(self, site: FrameSite) -> u64
        requires { AreInOrder self.scopes.now.scopes }
        ensures { result ≡ (site_view self.entry.bytes.now self.entry.lines.now
            self.entry.scopes.now.scopes site).line }
    {
        match site {
            FrameSite::Row(row) => self.row_line(row),
            FrameSite::Call(number) => self.call_line(number),
        }
    }
}

/// Returns whether a NUL is at an offset of a section.
fn is_nul(section: &[u8], offset: usize) -> bool
    ensures { result ≡ option_map_or (λ byte. byte == 0) (slice_get section.now offset) false }
{
    section.get(offset).is_some_and(|byte| *byte == 0)
}

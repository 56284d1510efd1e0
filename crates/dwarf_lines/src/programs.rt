//! The line programs of a section.

ghost use Rattle.std.specs.Prelude.{◌≡◌, ◌≤◌, ◌<◌, length, IfOk, vec_len};
ghost use Rattle.dwarf_lines.specs.Private.Readers.{sections_of};
ghost use Rattle.dwarf_lines.specs.Headers.{header_at};
ghost use Rattle.dwarf_lines.specs.Programs.{program_at_place};
ghost use Rattle.dwarf_lines.specs.Private.Stored.{header_in, AddsProgram};
ghost use Rattle.dwarf_bytes.specs.Refusals.{Gives};

use crate::entries::{Entry, IndexedSections};
use crate::entry_tables::FileTableReader;
use crate::formats::EntryTable;
use crate::line_encoding::LineEncoding;
use crate::matrix::add_rows;
use crate::program_bounds::bounds_of;
use crate::row::{Origin, ProgramNo, Row};
use dwarf_bytes::{Cause, Cursor};
use std::alloc::Global;

/// The directories and files of a program, and its offset in the section.
#[derive(Drop)]
pub struct ProgramFiles {
    pub offset: u64,
    pub directories: Vec<Entry>,
    pub files: Vec<Entry>,
}

/// The decoded header of a program.
#[derive(Drop)]
pub struct LineProgramHeader<'a> {
    pub opcodes: LineEncoding<'a>,
    pub directories: Vec<Entry>,
    pub files: Vec<Entry>,
    /// The offset of the first instruction.
    pub first: usize,
    /// The end of the program (exclusive).
    pub past: usize,
}

/// Reads the header of the program at an offset of the section.
#[tactic(auto, unfolding(crate::specs::Headers::header_at))]
fn header<'a>(
    alloc: Global,
    sections: IndexedSections<'a>,
    place: usize,
) -> Result<LineProgramHeader<'a>, Cause>
    requires { place ≤ length sections.line.now }
    ensures gives { Gives header_in result (header_at (sections_of sections.entry) place) }
    ensures range { IfOk result (λ h. 0 < h.opcodes.line_range) }
    ensures first { IfOk result (λ h. h.first ≤ h.past) }
    ensures past { IfOk result (λ h. h.past ≤ length sections.entry.line.now) }
{
    let bounds = bounds_of(sections.line, place)?;
    let bytes = &sections.line[..bounds.first];
    let mut cursor = Cursor::new(bytes);
    cursor.seek(bounds.fields)?;
    let opcodes = LineEncoding::read(bytes, &mut cursor)?;
    let reader = FileTableReader {
        sections,
        format: bounds.format,
        table: EntryTable::Directories,
    };
    let directories = reader.table(alloc, &mut cursor)?;
    let reader = FileTableReader {
        table: EntryTable::Files(directories.len() as u64),
        ..reader
    };
    let files = reader.table(alloc, &mut cursor)?;
    Ok(LineProgramHeader {
        opcodes,
        directories,
        files,
        first: bounds.first,
        past: bounds.past,
    })
}

/// Appends the rows and the tables of the program at an offset. Returns the end of the program.
#[tactic(auto, unfolding(crate::specs::Programs::program_at_place))]
pub fn add_program(
    alloc: Global,
    sections: IndexedSections,
    place: usize,
    rows: &mut Vec<Row>,
    programs: &mut Vec<ProgramFiles>,
) -> Result<usize, Cause>
    requires { place ≤ length sections.line.now }
    ensures { AddsProgram result
        (program_at_place (sections_of sections.entry) (vec_len programs.old) place)
        rows.old.items rows.new.items programs.old.items programs.new.items }
{
    let header = header(alloc, sections, place)?;
    let origin = Origin {
        program: ProgramNo(programs.len()),
        files: header.files.len() as u64,
    };
    let bytes = &sections.line[..header.past];
    add_rows(&header.opcodes, origin, bytes, header.first, rows)?;
    let LineProgramHeader {
        opcodes: _,
        directories,
        files,
        first: _,
        past,
    } = header;
    programs.push(ProgramFiles {
        offset: place as u64,
        directories,
        files,
    })?;
    Ok(past)
}

//! The line tables of an object.

ghost use Rattle.std.specs.Prelude.{◌≡◌, ◌<◌, ◌≤◌, ◌==◌, position, map, length};
ghost use Rattle.std.specs.List.Sorted.{IsStrictlyIncreasing, IsPartitionPoint};
ghost use Rattle.dwarf_bytes.specs.Refusals.{Decodes};
ghost use Rattle.dwarf_lines.specs.Sections.{LineSections};
ghost use Rattle.dwarf_lines.specs.Paths.{path_parts};
ghost use Rattle.dwarf_lines.specs.Private.Readers.{sections_of};
ghost use Rattle.dwarf_lines.specs.Lines.{Lines, lines_in, program_at, file_count, path_of};

use crate::entries::{Entry, IndexedSections};
use crate::path::{PathParts, parts_of};
use crate::programs::{ProgramFiles, add_program};
use crate::row::{ProgramNo, Row};
use dwarf_bytes::{LoadFault, Section, TextIndex};
use std::alloc::Global;
use std::marker::Model;

/// The rows of all line programs of an object, and their directory and file tables.
#[derive(Drop)]
pub struct LineTables {
    rows: Vec<Row>,
    programs: Vec<ProgramFiles>,
}

impl Model for LineTables {
    ghost use Rattle.std.specs.Prelude.{map};
    ghost use Rattle.std.specs.List.Sorted.{IsStrictlyIncreasing};
    ghost use Rattle.dwarf_lines.specs.Lines.{Lines};
    ghost use Rattle.dwarf_lines.specs.Private.Stored.{tables_in};

    ghost Value = { Lines };

    ghost view = { λ t. record { rows = t.rows.items; programs = map tables_in t.programs.items } };

    ghost invariant = { λ t.
        IsStrictlyIncreasing (map (λ program. program.offset) t.programs.items) };
}

impl LineTables {
    /// Decodes the line programs of `.debug_line`, which refer to strings of `.debug_line_str` and
    /// `.debug_str` by offset (DWARF 5, 6.2). A fault has its program's offset in `.debug_line`.
    pub fn read(
        alloc: Global,
        line: &[u8],
        line_str: &[u8],
        str: &[u8],
    ) -> Result<LineTables, LoadFault>
        ensures { Decodes (λ lines. lines) result
            (lines_in (record { line = line.now; line_str = line_str.now; str = str.now })) }
    {
        let line_str = TextIndex::of(alloc, line_str)?;
        let str = TextIndex::of(alloc, str)?;
        let sections = IndexedSections {
            line,
            line_str: &line_str,
            str: &str,
        };
        read_programs(alloc, sections)
    }

    /// Returns the rows of all programs, in file order.
    pub fn rows(&self) -> &[Row]
        ensures { result.now ≡ self.now.rows }
    {
        self.rows.as_slice()
    }

    /// Returns the program that starts at an offset of `.debug_line`.
    #[tactic(auto, using(crate::proofs::Lists::Positions::position_of_map))]
    pub fn program_at(&self, offset: u64) -> Option<ProgramNo>
        ensures { result ≡ program_at self.now offset }
    {
        match position_of(self.programs.as_slice(), offset) {
            Some(n) => Some(ProgramNo(n)),
            None => None,
        }
    }

    /// Returns the number of files of a program, or 0 if there is no such program.
    pub fn files(&self, program: ProgramNo) -> u64
        ensures { result ≡ file_count self.now program }
    {
        match self.programs.get(program.0) {
            Some(tables) => tables.files.len() as u64,
            None => 0,
        }
    }

    /// Returns the parts of the path of a program's file, or `None` if the program, the file or its
    /// directory does not exist. Files are numbered from 0.
    // Inlined: called for each frame.
    #[inline(always)]
    pub fn path(&self, program: ProgramNo, file: u64) -> Option<PathParts>
        ensures { result ≡ path_of self.now program file }
    {
        let tables = self.programs.get(program.0)?;
        path_in(tables.directories.as_slice(), tables.files.as_slice(), file)
    }
}

/// Decodes the line programs of a section.
fn read_programs(alloc: Global, sections: IndexedSections) -> Result<LineTables, LoadFault>
    ensures { Decodes (λ lines. lines) result (lines_in (sections_of sections.entry)) }
{
    let mut rows = Vec::new(alloc);
    let mut programs = Vec::new(alloc);
    let mut place = 0;
    while place < sections.line.len() {
        match add_program(alloc, sections, place, &mut rows, &mut programs) {
            Ok(past) => place = past,
            Err(cause) => {
                return Err(LoadFault::at_item(Section::DebugLine, cause, place as u64));
            }
        }
    }
    Ok(LineTables { rows, programs })
}

/// Returns the parts of the path of a program's file.
// Inlined: called for each frame.
#[inline(always)]
fn path_in(directories: &[Entry], files: &[Entry], number: u64) -> Option<PathParts>
    ensures { result ≡ path_parts directories.now files.now number }
{
    let file = files.get(number as usize)?;
    let directory = directories.get(file.directory as usize)?;
    let current = directories.first()?;
    Some(parts_of(current.path, file.directory, directory.path, file.path))
}

/// Returns the number of programs that start before an offset.
fn starts_before(programs: &[ProgramFiles], offset: u64) -> usize
    requires { IsStrictlyIncreasing (map (λ program. program.offset) programs.now) }
    ensures within { result ≤ length programs.now }
    ensures parts { IsPartitionPoint
        (λ program. program.offset < offset) (λ program. offset ≤ program.offset)
        programs.now result }
{
    programs.partition_point(|program| program.offset < offset)
}

/// Returns the index of the program that starts at an offset.
fn position_of(programs: &[ProgramFiles], offset: u64) -> Option<usize>
    requires { IsStrictlyIncreasing (map (λ program. program.offset) programs.now) }
    ensures { result ≡ position (λ program. program.offset == offset) programs.now }
{
    let n = starts_before(programs, offset);
    if n < programs.len() && programs[n].offset == offset {
        Some(n)
    } else {
        None
    }
}

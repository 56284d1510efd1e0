//! Line programs for the tests, and assertions on them. The functions that read have no contract,
//! so the proof that a test is safe does not depend on their results.

ghost use Rattle.std.specs.Prelude.{◌≡◌, ◌+◌, length};

use crate::checks::{are_equal, expect, put};
use dwarf_bytes::{Cause, LoadFault, Section};
use dwarf_lines::{LineTables, ProgramNo, Row, Text};
use dwarf_samples::{inlined, two_sequences as second_sample};
use std::process::Abort;
use std::test::*;

/// Copies bytes.
pub fn copy(rt: &(impl Abort + AllocGlobal), bytes: &[u8]) -> Vec<u8> {
    expect(rt, bytes.to_vec(rt.alloc()).ok(), "out of memory")
}

/// Reads a `.debug_line`, `.debug_line_str` and `.debug_str` without a fault.
pub fn read_sections(rt: &(impl Abort + AllocGlobal), sections: [&[u8]; 3]) -> LineTables {
    expect(
        rt,
        LineTables::read(rt.alloc(), sections[0], sections[1], sections[2]).ok(),
        "the program is refused",
    )
}

/// Reads a `.debug_line` without other sections and without a fault.
pub fn read(rt: &(impl Abort + AllocGlobal), line: &[u8]) -> LineTables {
    read_sections(rt, [line, &[], &[]])
}

/// Returns the fault of a `.debug_line` without other sections.
pub fn fault_of(rt: &(impl Abort + AllocGlobal), line: &[u8]) -> Option<LoadFault> {
    match LineTables::read(rt.alloc(), line, &[], &[]) {
        Ok(_) => None,
        Err(fault) => Some(fault),
    }
}

/// Checks the fault of a `.debug_line`.
pub fn has_fault(rt: &(impl Abort + AllocGlobal), line: &[u8], cause: Cause, at: u64) {
    are_equal(rt, fault_of(rt, line), Some(fault(cause, at)));
}

/// Checks all rows.
pub fn are_rows(rt: &impl Abort, tables: &LineTables, rows: &[Row]) {
    are_equal(rt, tables.rows(), rows);
}

/// Checks the rows of a `.debug_line`.
pub fn has_rows(rt: &(impl Abort + AllocGlobal), line: &[u8], rows: &[Row]) {
    are_rows(rt, &read(rt, line), rows);
}

/// Checks the rows of a program of these instructions.
pub fn have_rows(rt: &(impl Abort + AllocGlobal), instructions: &[u8], rows: &[Row]) {
    has_rows(rt, &with_instructions(rt, instructions), rows);
}

/// Checks the fault of a program of these instructions.
pub fn have_fault(rt: &(impl Abort + AllocGlobal), instructions: &[u8], cause: Cause) {
    has_fault(rt, &with_instructions(rt, instructions), cause, 0);
}

/// Checks the path of a file of the first program, whose parts are in these sections.
pub fn has_path(
    rt: &(impl Abort + AllocGlobal),
    tables: &LineTables,
    sections: [&[u8]; 3],
    file: u64,
    wanted: &[u8],
) {
    are_equal(rt, path(rt, tables, sections, file).as_slice(), wanted);
}

/// Returns the 75 bytes of the first sample's `.debug_line`.
pub fn one_sequence() -> [u8; 75] {
    let mut line = [0; 75];
    line.copy_from_slice(&inlined()[259..334]);
    line
}

/// Returns the 97 bytes of the second sample's `.debug_line`.
pub fn two_sequences() -> [u8; 97] {
    let mut line = [0; 97];
    line.copy_from_slice(&second_sample()[259..356]);
    line
}

/// Returns both, one after the other.
pub fn two_programs() -> [u8; 172] {
    let mut line = [0; 172];
    line[..75].copy_from_slice(&inlined()[259..334]);
    line[75..].copy_from_slice(&second_sample()[259..356]);
    line
}

/// Returns the first sample's program with a dead sequence.
pub fn tombstone_program() -> [u8; 75] {
    let mut line = one_sequence();
    line[58..66].copy_from_slice(&[0xff; 8]);
    line
}

/// Builds a program with the first sample's header and these instructions.
pub fn with_instructions(rt: &(impl Abort + AllocGlobal), instructions: &[u8]) -> Vec<u8> {
    let len = 51u8.saturating_add(instructions.len().min(200) as u8);
    let mut line = Vec::new(rt.alloc());
    put(rt, &mut line, &[len]);
    put(rt, &mut line, &inlined()[260..314]);
    put(rt, &mut line, instructions);
    line
}

/// Appends a string and its NUL.
fn put_text(rt: &impl Abort, bytes: &mut Vec<u8>, text: &[u8]) {
    put(rt, bytes, text);
    put(rt, bytes, &[0]);
}

/// Builds a program without instructions, with these directories and one file in directory 1.
pub fn with_paths(
    rt: &(impl Abort + AllocGlobal),
    directories: [&[u8]; 2],
    file: &[u8],
) -> Vec<u8> {
    let mut tables = Vec::new(rt.alloc());
    put(rt, &mut tables, &inlined()[271..289]);
    put(rt, &mut tables, &[1, 1, 8, 2]);
    for directory in directories {
        put_text(rt, &mut tables, directory);
    }
    put(rt, &mut tables, &[2, 1, 8, 2, 0x0b, 1]);
    put_text(rt, &mut tables, file);
    put(rt, &mut tables, &[1]);
    let len = tables.len().min(200) as u8;
    let mut line = Vec::new(rt.alloc());
    put(rt, &mut line, &[len + 8, 0, 0, 0, 5, 0, 8, 0, len, 0, 0, 0]);
    put(rt, &mut line, &tables);
    line
}

/// Builds a program without instructions, with a directory at offset 0 of `.debug_line_str` and a
/// file at offset 3 of `.debug_str`. Two bytes follow the tables of its header.
pub fn with_offsets(rt: &(impl Abort + AllocGlobal)) -> Vec<u8> {
    let mut line = Vec::new(rt.alloc());
    put(rt, &mut line, &[44, 0, 0, 0, 5, 0, 8, 0, 36, 0, 0, 0]);
    put(rt, &mut line, &inlined()[271..289]);
    let tables = [1, 1, 0x1f, 1, 0, 0, 0, 0, 1, 1, 0x0e, 1, 3, 0, 0, 0];
    put(rt, &mut line, &tables);
    put(rt, &mut line, &[0xaa, 0xbb]);
    line
}

/// Returns a fault of the program at an offset.
pub fn fault(cause: Cause, at: u64) -> LoadFault {
    LoadFault {
        section: Section::DebugLine,
        cause,
        at,
    }
}

/// Returns the out-of-memory fault.
pub fn memory_fault() -> LoadFault {
    LoadFault {
        section: Section::Elf,
        cause: Cause::Memory,
        at: 0,
    }
}

/// Returns a row of a program's file 1.
pub fn row(program: usize, address: u64, line: u32) -> Row {
    Row {
        address,
        program: ProgramNo(program),
        file: 1,
        line,
        end: false,
    }
}

/// Returns the end of a sequence.
pub fn end(program: usize, address: u64) -> Row {
    Row {
        address,
        program: ProgramNo(program),
        file: 0,
        line: 0,
        end: true,
    }
}

/// Returns the bytes of the path of a file of the first program, whose parts are in these sections.
fn path(
    rt: &(impl Abort + AllocGlobal),
    tables: &LineTables,
    sections: [&[u8]; 3],
    file: u64,
) -> Vec<u8> {
    let parts = expect(rt, tables.path(ProgramNo(0), file), "no path");
    let mut text = Vec::new(rt.alloc());
    for (i, part) in parts.parts().iter().enumerate() {
        if i > 0 {
            put(rt, &mut text, b"/");
        }
        put(rt, &mut text, bytes_of(sections, *part));
    }
    text
}

/// Returns the bytes of a part of a path.
fn bytes_of(sections: [&[u8]; 3], part: Text) -> &[u8] {
    let section = match part.section {
        Section::DebugStr => sections[2],
        Section::DebugLineStr => sections[1],
        _ => sections[0],
    };
    let rest = section.get(part.span.place..).unwrap_or(&[]);
    rest.get(..part.span.len).unwrap_or(&[])
}

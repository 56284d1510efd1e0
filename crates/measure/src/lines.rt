//! Reads and prints the line programs of an object.

use crate::scopes;
use anyhow::{Context, Result};
use dwarf_bytes::{LoadFault, Object, Section};
use dwarf_lines::{LineTables, PathParts, Row};
use std::alloc::Global;
use std::io::{self, BufWriter, Write};

/// Reads the line programs of an object.
pub fn read(alloc: Global, bytes: &[u8]) -> Result<LineTables, LoadFault> {
    let layout = Object::find(bytes)?;
    LineTables::read(
        alloc,
        layout.debug_line.of(bytes),
        layout.debug_line_str.of(bytes),
        layout.debug_str.of(bytes),
    )
}

/// Prints each row as `ADDRESS PATH:LINE`, and the end of a sequence as `ADDRESS end`.
pub fn print_rows(rt: &HostRuntime, bytes: &[u8]) -> Result<()> {
    let lines = read(rt.alloc(), bytes)?;
    let mut out = BufWriter::new(rt.alloc(), io::writer(rt))?;
    for row in lines.rows() {
        print_row(&mut out, bytes, &lines, row)?;
    }
    out.flush().context("writing")?;
    Ok(())
}

fn print_row<W: Write>(out: &mut W, bytes: &[u8], lines: &LineTables, row: &Row) -> Result<()> {
    write!(out, "{:x} ", row.address)?;
    if row.end {
        writeln!(out, "end")?;
        return Ok(());
    }
    if let Some(parts) = lines.path(row.program, row.file) {
        print_path(out, bytes, &parts)?;
    }
    writeln!(out, ":{}", row.line)?;
    Ok(())
}

/// Prints the files of the programs that units refer to, each as `STMT_LIST NUMBER PATH`, with
/// tabs.
pub fn print_files(rt: &HostRuntime, bytes: &[u8]) -> Result<()> {
    let lines = read(rt.alloc(), bytes)?;
    let scopes = scopes::read(rt.alloc(), bytes)?;
    let mut out = BufWriter::new(rt.alloc(), io::writer(rt))?;
    for root in scopes.roots() {
        if let Some(offset) = root.stmt_list {
            print_program_files(&mut out, bytes, &lines, offset)?;
        }
    }
    out.flush().context("writing")?;
    Ok(())
}

/// Prints the files of the program at an offset.
fn print_program_files<W: Write>(
    out: &mut W,
    bytes: &[u8],
    lines: &LineTables,
    offset: u64,
) -> Result<()> {
    let Some(program) = lines.program_at(offset) else {
        return Ok(());
    };
    for file in 0..lines.files(program) {
        write!(out, "{offset}\t{file}\t")?;
        if let Some(parts) = lines.path(program, file) {
            print_path(out, bytes, &parts)?;
        }
        out.write_all(b"\n")?;
    }
    Ok(())
}

/// Prints the parts of a path, joined by slashes.
fn print_path<W: Write>(out: &mut W, bytes: &[u8], parts: &PathParts) -> Result<()> {
    let layout = Object::find(bytes)?;
    for (i, part) in parts.parts().iter().enumerate() {
        if i > 0 {
            out.write_all(b"/")?;
        }
        let section = match part.section {
            Section::DebugLineStr => layout.debug_line_str,
            Section::DebugStr => layout.debug_str,
            _ => layout.debug_line,
        };
        let start = part.span.place;
        if let Some(text) = section
            .of(bytes)
            .get(start..start.saturating_add(part.span.len))
        {
            out.write_all(text)?;
        }
    }
    Ok(())
}

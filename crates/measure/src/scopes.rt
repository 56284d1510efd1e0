//! Reads and prints the scopes of an object.

use anyhow::{Context, Result};
use dwarf_bytes::{LoadFault, Object, Section, text_at};
use dwarf_entries::{Range, Root, Scope, ScopeKind, Scopes, Sections, TextOffset};
use std::alloc::Global;
use std::io::{self, BufWriter, Write};

/// Reads the scopes of an object.
pub fn read(alloc: Global, bytes: &[u8]) -> Result<Scopes, LoadFault> {
    Scopes::read(alloc, &Sections::of(bytes, &Object::find(bytes)?))
}

/// Returns the number of ranges of all scopes.
pub fn count_ranges(scopes: &Scopes) -> u64 {
    let mut count = 0u64;
    for scope in scopes.scopes() {
        count = count.wrapping_add(scope.ranges(scopes).len() as u64);
    }
    count
}

/// Prints each scope of each root as `OFFSET KIND NAME LINKAGE_NAME RANGES CALL_FILE CALL_LINE END
/// STMT_LIST NUMBER ROOT`, with tabs between them, ranges as `FROM-TO,..`, and `-` for what is
/// absent. END is the number of the first later scope that is not below it, ROOT the offset of the
/// root.
pub fn print_scopes(rt: &HostRuntime, bytes: &[u8]) -> Result<()> {
    let sections = Sections::of(bytes, &Object::find(bytes)?);
    let scopes = Scopes::read(rt.alloc(), &sections)?;
    let mut out = BufWriter::new(rt.alloc(), io::writer(rt))?;
    for root in scopes.roots() {
        for scope in scopes.scopes().get(root.first..root.past).unwrap_or(&[]) {
            print_scope(&mut out, &sections, &scopes, root, scope)?;
        }
    }
    out.flush().context("writing")?;
    Ok(())
}

/// Prints a scope of a root.
fn print_scope<W: Write>(
    out: &mut W,
    sections: &Sections<'_>,
    scopes: &Scopes,
    root: &Root,
    scope: &Scope,
) -> Result<()> {
    let kind = match scope.kind() {
        ScopeKind::Subprogram => "subprogram",
        ScopeKind::Inlined => "inlined",
    };
    write!(out, "{:x}\t{}\t", scope.offset(), kind)?;
    print_text(out, sections, scope.name())?;
    out.write_all(b"\t")?;
    print_text(out, sections, scope.linkage_name())?;
    out.write_all(b"\t")?;
    print_ranges(out, scope.ranges(scopes))?;
    out.write_all(b"\t")?;
    print_number(out, scope.call_file(scopes))?;
    out.write_all(b"\t")?;
    print_number(out, scope.call_line(scopes))?;
    write!(out, "\t{}\t", scope.end())?;
    print_number(out, scope.stmt_list(scopes))?;
    writeln!(out, "\t{}\t{:x}", scope.number(), root.offset)?;
    Ok(())
}

/// Prints the bytes of a string.
fn print_text<W: Write>(
    out: &mut W,
    sections: &Sections<'_>,
    text: Option<TextOffset>,
) -> Result<()> {
    let Some(text) = text else {
        out.write_all(b"-")?;
        return Ok(());
    };
    let section = match text.section {
        Section::DebugStr => sections.debug_str,
        Section::DebugLineStr => sections.debug_line_str,
        _ => sections.debug_info,
    };
    if let Ok(bytes) = text_at(section, text.offset as u64) {
        out.write_all(bytes)?;
    }
    Ok(())
}

/// Prints ranges, separated by commas.
fn print_ranges<W: Write>(out: &mut W, ranges: &[Range]) -> Result<()> {
    if ranges.is_empty() {
        out.write_all(b"-")?;
    }
    for (i, range) in ranges.iter().enumerate() {
        if i > 0 {
            out.write_all(b",")?;
        }
        write!(out, "{:x}-{:x}", range.from, range.to)?;
    }
    Ok(())
}

/// Prints a number, or `-` if it is absent.
fn print_number<W: Write>(out: &mut W, number: Option<u64>) -> Result<()> {
    match number {
        Some(number) => write!(out, "{number}")?,
        None => out.write_all(b"-")?,
    }
    Ok(())
}

//! Tables of headers that could cost more time or memory than their size warrants.

use crate::checks::{are_equal, expect, put};
use crate::lines::fixtures::*;
use dwarf_bytes::{Cause, Section, Span};
use dwarf_lines::{LineTables, ProgramNo, Text};
use dwarf_samples::inlined;
use std::process::Abort;
use std::test::*;

/// Builds a program without instructions, whose header has these tables.
fn with_tables(rt: &(impl Abort + AllocGlobal), tables: &[u8]) -> Vec<u8> {
    let fields = u32::try_from(tables.len()).unwrap_or(0).saturating_add(18);
    let mut line = Vec::new(rt.alloc());
    put(rt, &mut line, &fields.saturating_add(8).to_le_bytes());
    put(rt, &mut line, &[5, 0, 8, 0]);
    put(rt, &mut line, &fields.to_le_bytes());
    put(rt, &mut line, &inlined()[271..289]);
    put(rt, &mut line, tables);
    line
}

/// Appends the same bytes `count` times.
fn put_many(rt: &impl Abort, bytes: &mut Vec<u8>, count: u32, more: &[u8]) {
    for _ in 0..count {
        put(rt, bytes, more);
    }
}

/// Builds tables of 100,000 directories at offset 0 of `.debug_line_str`, and one file `c` in the
/// last of them.
fn with_long_directories(rt: &(impl Abort + AllocGlobal)) -> Vec<u8> {
    let mut tables = Vec::new(rt.alloc());
    put(rt, &mut tables, &[1, 1, 0x1f, 0xa0, 0x8d, 0x06]);
    put_many(rt, &mut tables, 100_000, &[0, 0, 0, 0]);
    let file = [2, 1, 8, 2, 0x0f, 1, b'c', 0, 0x9f, 0x8d, 0x06];
    put(rt, &mut tables, &file);
    with_tables(rt, &tables)
}

/// Builds tables of 1,000 directories with a path and 254 flags each, and one file `c` in directory
/// 999.
fn with_flags(rt: &(impl Abort + AllocGlobal)) -> Vec<u8> {
    let mut tables = Vec::new(rt.alloc());
    put(rt, &mut tables, &[255]);
    put_many(rt, &mut tables, 127, &[5, 0x19]);
    put(rt, &mut tables, &[1, 8]);
    put_many(rt, &mut tables, 127, &[4, 0x19]);
    put(rt, &mut tables, &[0xe8, 0x07]);
    put_many(rt, &mut tables, 1_000, b"/d\0");
    let file = [2, 1, 8, 2, 0x0f, 1, b'c', 0, 0xe7, 0x07];
    put(rt, &mut tables, &file);
    with_tables(rt, &tables)
}

/// Builds tables of the directories `d` and `e`, and one file `c`, whose directory index has this
/// form and these bytes.
fn with_index(rt: &(impl Abort + AllocGlobal), form: u8, index: &[u8]) -> Vec<u8> {
    let mut tables = Vec::new(rt.alloc());
    put(rt, &mut tables, &[1, 1, 8, 2, b'd', 0, b'e', 0]);
    put(rt, &mut tables, &[2, 1, 8, 2, form, 1, b'c', 0]);
    put(rt, &mut tables, index);
    with_tables(rt, &tables)
}

/// Checks the parts of the path of the first file.
fn has_parts(rt: &impl Abort, tables: &LineTables, parts: &[Text]) {
    let path = expect(rt, tables.path(ProgramNo(0), 0), "no path");
    are_equal(rt, path.parts(), parts);
}

/// Checks the path of the file `c` in the directory `e`, whose index has this form and these bytes.
fn has_index(rt: &(impl Abort + AllocGlobal), form: u8, index: &[u8]) {
    let line = with_index(rt, form, index);
    has_path(rt, &read(rt, &line), [&line, &[], &[]], 0, b"d/e/c");
}

#[test]
fn a_directory_index_has_three_forms(rt: HostRuntime) {
    let forms: [(u8, &[u8]); 3] = [(0x0b, &[1]), (0x05, &[1, 0]), (0x0f, &[0x81, 0])];
    for (form, index) in forms {
        has_index(&rt, form, index);
    }
}

#[test]
fn many_paths_in_one_long_text(rt: HostRuntime) {
    let line = with_long_directories(&rt);
    let mut text = Vec::new(rt.alloc());
    put_many(&rt, &mut text, 1_000_000, b"d");
    let cut = LineTables::read(rt.alloc(), line.as_slice(), text.as_slice(), &[]);
    are_equal(&rt, cut.err(), Some(fault(Cause::String, 0)));
    put(&rt, &mut text, &[0]);
    let tables = read_sections(&rt, [&line, &text, &[]]);
    let long = Text {
        section: Section::DebugLineStr,
        span: Span {
            place: 0,
            len: 1_000_000,
        },
    };
    let place = line.len().saturating_sub(5);
    let file = Text {
        section: Section::DebugLine,
        span: Span { place, len: 1 },
    };
    has_parts(&rt, &tables, &[long, long, file]);
}

#[test]
fn fields_without_bytes_add_nothing(rt: HostRuntime) {
    let line = with_flags(&rt);
    let tables = read(&rt, &line);
    let directory = Text {
        section: Section::DebugLine,
        span: Span {
            place: line.len().saturating_sub(13),
            len: 2,
        },
    };
    let file = Text {
        section: Section::DebugLine,
        span: Span {
            place: line.len().saturating_sub(4),
            len: 1,
        },
    };
    are_equal(&rt, tables.files(ProgramNo(0)), 1);
    has_parts(&rt, &tables, &[directory, file]);
}

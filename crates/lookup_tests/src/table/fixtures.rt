//! Objects for the tests, and checks of their answers.

use crate::checks::{are_equal, boxed, copy, expect};
use addr_table::{AddressTable, Frame, Frames, Module, Path, Place, Site, Steps};
use std::process::Abort;
use std::test::*;

/// Checks that a number is from `least` to `most`, inclusive.
pub fn is_within(rt: &impl Abort, number: u64, least: u64, most: u64) {
    let is_within = least <= number && number <= most;
    are_equal(
        rt,
        (number, least, most, is_within),
        (number, least, most, true),
    );
}

/// The sections of an object to build.
#[derive(Clone, Copy)]
pub struct Parts<'a> {
    pub abbrev: &'a [u8],
    pub info: &'a [u8],
    pub line: &'a [u8],
    pub rnglists: &'a [u8],
}

/// The section names: one NUL, then each name with a NUL.
const NAMES: &[u8] = b"\0.debug_abbrev\0.debug_info\0.debug_line\0.debug_rnglists\0.shstrtab\0";

/// Appends bytes.
pub fn put(rt: &impl Abort, bytes: &mut Vec<u8>, more: &[u8]) {
    expect(rt, bytes.extend_from_slice(more).ok(), "out of memory");
}

/// Appends numbers of eight bytes.
fn put_all(rt: &impl Abort, bytes: &mut Vec<u8>, numbers: &[u64]) {
    for number in numbers {
        put(rt, bytes, &number.to_le_bytes());
    }
}

/// Appends the header of a section at a file offset.
fn put_header(rt: &impl Abort, bytes: &mut Vec<u8>, name: u8, place: u64, len: u64) {
    // sh_name, SHT_PROGBITS
    put(rt, bytes, &[name, 0, 0, 0, 1, 0, 0, 0]);
    // sh_flags, sh_addr, sh_offset, sh_size, sh_link and sh_info, sh_addralign, sh_entsize
    put_all(rt, bytes, &[0, 0, place, len, 0, 0, 0]);
}

/// Appends the ELF header and one program header, for sections that end at `end`: `ET_DYN`, and a
/// load segment of 0x2000_0000 bytes from 0x1000 on.
fn put_heads(rt: &impl Abort, bytes: &mut Vec<u8>, end: u64) {
    put(
        rt,
        bytes,
        &[0x7f, b'E', b'L', b'F', 2, 1, 1, 0, 0, 0, 0, 0, 0, 0, 0, 0],
    );
    put(rt, bytes, &[3, 0, 0, 0, 0, 0, 0, 0]);
    // e_entry, e_phoff, e_shoff
    put_all(rt, bytes, &[0, 64, end]);
    // e_flags, e_ehsize, e_phentsize, e_phnum, e_shentsize, e_shnum, e_shstrndx
    put(
        rt,
        bytes,
        &[0, 0, 0, 0, 0, 0, 0x38, 0, 1, 0, 0x40, 0, 6, 0, 5, 0],
    );
    // p_type, p_offset, p_vaddr, p_paddr, p_filesz, p_memsz, p_align
    put_all(rt, bytes, &[1, 0, 0x1000, 0, 0, 0x2000_0000, 0]);
}

/// Builds an object with these sections.
pub fn object(rt: &(impl Abort + AllocGlobal), parts: Parts<'_>) -> Vec<u8> {
    let abbrev = parts.abbrev.len() as u64;
    let info = parts.info.len() as u64;
    let line = parts.line.len() as u64;
    let rnglists = parts.rnglists.len() as u64;
    let at_info = abbrev.saturating_add(120);
    let at_line = at_info.saturating_add(info);
    let at_rnglists = at_line.saturating_add(line);
    let at_names = at_rnglists.saturating_add(rnglists);
    let mut bytes = Vec::new(rt.alloc());
    put_heads(rt, &mut bytes, at_names.saturating_add(65));
    put_sections(rt, &mut bytes, parts);
    let headers = [
        (1, 120, abbrev),
        (15, at_info, info),
        (27, at_line, line),
        (39, at_rnglists, rnglists),
        (55, at_names, 65),
    ];
    for (name, place, len) in headers {
        put_header(rt, &mut bytes, name, place, len);
    }
    bytes
}

/// Appends the sections, their names, and the null section header.
fn put_sections(rt: &impl Abort, bytes: &mut Vec<u8>, parts: Parts<'_>) {
    let all = [
        parts.abbrev,
        parts.info,
        parts.line,
        parts.rnglists,
        NAMES,
        &[0; 64],
    ];
    for section in all {
        put(rt, bytes, section);
    }
}

/// Appends a compilation unit with these entries. Its abbreviations are at offset 0.
pub fn add_unit(rt: &impl Abort, info: &mut Vec<u8>, entries: &[u8]) {
    let unit_length = u32::try_from(entries.len()).unwrap_or(0).saturating_add(8);
    put(rt, info, &unit_length.to_le_bytes());
    // version, DW_UT_compile, address_size, debug_abbrev_offset
    put(rt, info, &[5, 0, 1, 8, 0, 0, 0, 0]);
    put(rt, info, entries);
}

/// Decodes a module from bytes without a fault.
pub fn module(rt: &(impl Abort + AllocGlobal), bytes: Vec<u8>) -> Box<Module> {
    let module = expect(
        rt,
        Module::decode(rt.alloc(), bytes).ok(),
        "the object is refused",
    );
    boxed(rt, module)
}

/// Decodes the module of a sample.
pub fn sample(rt: &(impl Abort + AllocGlobal), bytes: &[u8]) -> Box<Module> {
    module(rt, copy(rt, bytes))
}

/// Returns the place of a link address.
pub fn find(module: &Module, link: u64) -> Option<Place> {
    module.find(link, &mut Steps::default())
}

/// Returns the indexes of the row and the scope of a place.
pub fn numbers(place: Option<Place>) -> Option<(Option<usize>, Option<usize>)> {
    let place = place?;
    Some((place.row(), place.scope()))
}

/// The expected name, path and line of a frame.
pub type Expected = (Option<&'static [u8]>, Option<&'static [u8]>, u64);

/// Checks that a path is these bytes: its parts are followed by slashes, except the last one.
fn is_path(rt: &impl Abort, path: Path<'_>, expected: &[u8]) {
    let mut rest = expected;
    for part in path {
        let slash = usize::from(rest.len() < expected.len());
        let end = part.len().saturating_add(slash);
        are_equal(rt, rest.get(slash..end), Some(part));
        rest = rest.get(end..).unwrap_or(&[]);
    }
    are_equal(rt, rest.is_empty(), true);
}

/// Checks the next frame.
fn is_frame(rt: &impl Abort, frame: Frame<'_>, expected: &Expected) {
    let (name, path, line) = *expected;
    are_equal(rt, (frame.name(), frame.line()), (name, line));
    are_equal(rt, frame.path().is_some(), path.is_some());
    if let (Some(actual), Some(path)) = (frame.path(), path) {
        is_path(rt, actual, path);
    }
}

/// Checks that the frames are exactly the expected ones.
pub fn are_frames(rt: &impl Abort, frames: Frames<'_>, expected: &[Expected]) {
    let mut frames = frames;
    for expected in expected {
        match frames.next() {
            Some(frame) => is_frame(rt, frame, expected),
            None => are_equal(rt, "too few frames", ""),
        }
    }
    are_equal(rt, frames.next().is_none(), true);
}

/// Checks that a site is that of the first of the expected frames.
fn is_site(rt: &impl Abort, site: Site<'_>, expected: &[Expected]) {
    let (path, line) = match expected.first() {
        Some(frame) => (frame.1, frame.2),
        None => (None, 0),
    };
    are_equal(rt, (site.path.is_some(), site.line), (path.is_some(), line));
    if let (Some(actual), Some(path)) = (site.path, path) {
        is_path(rt, actual, path);
    }
}

/// Checks the frames of a link address of a module, and its site.
pub fn answers(rt: &impl Abort, module: &Module, link: u64, expected: &[Expected]) {
    let Some(place) = find(module, link) else {
        return are_equal(rt, expected.len(), 0);
    };
    are_frames(rt, module.frames(place), expected);
    is_site(rt, module.site(place), expected);
}

/// Checks that the segments and a linear scan give the same place of an address.
pub fn agrees_with_scan(rt: &impl Abort, module: &Module, link: u64) {
    let scanned = module.scan().find(link, &mut Steps::default());
    let searched = module.segments().find(link, &mut Steps::default());
    are_equal(rt, (link, searched), (link, scanned));
    are_equal(rt, (link, find(module, link)), (link, scanned));
}

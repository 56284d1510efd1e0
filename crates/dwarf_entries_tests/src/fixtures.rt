//! Builders of units for the tests, and of the results expected for them.

pub use crate::checks::{
    Row, are_equal, are_scopes, call_of, covers_or_is_refused, expect, has_fault, have_fault,
    have_names, is_invalid_unit, is_named_or_refused, is_refused, scopes_of,
};
use dwarf_bytes::{Cause, LoadFault, Object, Section};
use dwarf_entries::{Range, Root, Sections, TextOffset};
use dwarf_samples::format_of_64_bits;
use std::process::Abort;
use std::test::*;

/// Returns sections with these entries and abbreviations. All other sections are empty.
pub fn sections<'a>(debug_info: &'a [u8], debug_abbrev: &'a [u8]) -> Sections<'a> {
    Sections {
        debug_info,
        debug_abbrev,
        debug_line: &[],
        debug_line_str: &[],
        debug_str: &[],
        debug_str_offsets: &[],
        debug_addr: &[],
        debug_rnglists: &[],
    }
}

/// Returns the sections of a sample object.
pub fn sections_of<'a>(rt: &impl Abort, object: &'a [u8]) -> Sections<'a> {
    let layout = expect(rt, Object::find(object).ok(), "the object is refused");
    Sections::of(object, &layout)
}

/// Appends bytes.
pub fn put(rt: &impl Abort, bytes: &mut Vec<u8>, more: &[u8]) {
    expect(rt, bytes.extend_from_slice(more).ok(), "out of memory");
}

/// Appends `count` copies of a byte.
pub fn put_copies(rt: &impl Abort, bytes: &mut Vec<u8>, byte: u8, count: usize) {
    for _ in 0..count {
        put(rt, bytes, &[byte]);
    }
}

/// Appends a unit of a type, with the offset of its abbreviations and its entries.
pub fn add_unit(
    rt: &impl Abort,
    info: &mut Vec<u8>,
    unit_type: u8,
    abbreviations: u8,
    entries: &[u8],
) {
    let unit_length = u32::try_from(entries.len()).unwrap_or(0).saturating_add(8);
    put(rt, info, &unit_length.to_le_bytes());
    // version, unit_type, address_size, debug_abbrev_offset
    put(rt, info, &[5, 0, unit_type, 8, abbreviations, 0, 0, 0]);
    put(rt, info, entries);
}

/// Builds a compilation unit with these entries, whose abbreviations are at offset 0. Its first
/// entry is at offset 12.
pub fn unit(rt: &(impl Abort + AllocGlobal), entries: &[u8]) -> Vec<u8> {
    let mut info = Vec::new(rt.alloc());
    add_unit(rt, &mut info, 1, 0, entries);
    info
}

/// A unit: its type, the offset of its abbreviations, and its entries.
pub type Unit<'a> = (u8, u8, &'a [u8]);

/// Builds contiguous units.
pub fn units_of(rt: &(impl Abort + AllocGlobal), units: &[Unit<'_>]) -> Vec<u8> {
    let mut info = Vec::new(rt.alloc());
    for (unit_type, abbreviations, entries) in units {
        add_unit(rt, &mut info, *unit_type, *abbreviations, entries);
    }
    info
}

/// The attributes of an entry: pairs of a name and a form, and their values.
pub type Attributes<'a> = (&'a [u8], &'a [u8]);

/// Builds the declarations of a compilation unit with children and of a subprogram without
/// children.
pub fn declarations(
    rt: &(impl Abort + AllocGlobal),
    root: Attributes<'_>,
    scope: Attributes<'_>,
) -> Vec<u8> {
    let mut table = Vec::new(rt.alloc());
    put(rt, &mut table, &[1, 0x11, 1]);
    put(rt, &mut table, root.0);
    put(rt, &mut table, &[0, 0, 2, 0x2e, 0]);
    put(rt, &mut table, scope.0);
    put(rt, &mut table, &[0, 0, 0]);
    table
}

/// Builds a unit with one subprogram. Its root is at offset 12, and the subprogram follows it.
pub fn one_scope(
    rt: &(impl Abort + AllocGlobal),
    root: Attributes<'_>,
    scope: Attributes<'_>,
) -> Vec<u8> {
    let mut entries = Vec::new(rt.alloc());
    put(rt, &mut entries, &[1]);
    put(rt, &mut entries, root.1);
    put(rt, &mut entries, &[2]);
    put(rt, &mut entries, scope.1);
    put(rt, &mut entries, &[0]);
    unit(rt, &entries)
}

/// A unit with one subprogram, and the declarations of both.
#[derive(Drop)]
pub struct OneScope {
    info: Vec<u8>,
    table: Vec<u8>,
}

impl OneScope {
    pub fn new(
        rt: &(impl Abort + AllocGlobal),
        root: Attributes<'_>,
        scope: Attributes<'_>,
    ) -> OneScope {
        let info = one_scope(rt, root, scope);
        let table = declarations(rt, root, scope);
        OneScope { info, table }
    }

    /// Returns sections with its entries and abbreviations. All other sections are empty.
    pub fn sections(&self) -> Sections<'_> {
        sections(&self.info, &self.table)
    }
}

/// Returns a fault of `.debug_info`.
pub fn fault(cause: Cause, at: u64) -> LoadFault {
    LoadFault {
        section: Section::DebugInfo,
        cause,
        at,
    }
}

/// Returns a fault of `.debug_info` if there is a cause.
pub fn fault_if(cause: Option<Cause>, at: u64) -> Option<LoadFault> {
    match cause {
        Some(cause) => Some(fault(cause, at)),
        None => None,
    }
}

/// Returns the location of a string: its section and its offset there.
pub fn text(section: Section, offset: usize) -> Option<TextOffset> {
    Some(TextOffset { section, offset })
}

pub fn range(from: u64, to: u64) -> Range {
    Range { from, to }
}

/// Returns a root without a line program.
pub fn root(offset: usize, first: usize, past: usize) -> Root {
    Root {
        offset,
        stmt_list: None,
        first,
        past,
    }
}

/// Returns the unit of the sample in the 64-bit format.
pub fn unit_of_64_bits() -> [u8; 112] {
    let mut unit = [0; 112];
    unit.copy_from_slice(&format_of_64_bits()[163..275]);
    unit
}

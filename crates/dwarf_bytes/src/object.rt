//! The ELF tables: load segments and sections of an object.

ghost use Rattle.std.specs.Prelude.{◌≡◌, ◌≤◌, ◌<◌, ◌+◌, ◌*◌, length, MatchResult, Some, None};
ghost use Rattle.std.specs.Prelude.{false, Ok, Err};
ghost use Rattle.dwarf_bytes.specs.Faults.{first_failure, item_fault, first_fault};
ghost use Rattle.dwarf_bytes.specs.Headers.{file_header};
ghost use Rattle.dwarf_bytes.specs.Elf.{is_invalid_section_table, section_header, names};
ghost use Rattle.dwarf_bytes.specs.Elf.{names_item};
ghost use Rattle.dwarf_bytes.specs.Elf.{section_item, load_items, section_items, elf_fault, layout};
ghost use Rattle.dwarf_bytes.specs.Elf.{low, high, AreInside};
ghost use Rattle.dwarf_bytes.specs.declared.fault.Section.TheVariants as sections;
ghost use Rattle.dwarf_bytes.specs.Private.Extents.{with_program_header};
ghost use Rattle.dwarf_bytes.specs.Private.FoundSections.{layout_of, spans_before, wanted_tests};

use crate::fault::{Cause, LoadFault, Section};
use crate::header_tests::checked_header;
use crate::headers::{
    FileHeader, ProgramHeader, SectionHeader, is_outside, program_header, section_header_at,
};
use crate::layout::{Layout, Span};
use crate::section_names::SectionNames;

/// The span of an absent section.
const NOWHERE: Span = Span { place: 0, len: 0 };

/// A file to load as an object.
pub struct Object;

impl Object {
    /// Finds the sections and the address range of an object, or returns its first fault.
    pub fn find(bytes: &[u8]) -> Result<Layout, LoadFault>
        ensures { MatchResult result (λ found. (elf_fault bytes.now ≡ None)
            × (found ≡ layout bytes.now) × AreInside bytes.now found)
            (λ fault. elf_fault bytes.now ≡ Some fault) }
    {
        let header = match checked_header(bytes) {
            Ok(header) => header,
            Err(cause) => return Err(elf(cause, 0)),
        };
        let (low, high) = extent(bytes, &header)?;
        let found = sections(bytes, &header)?;
        Ok(layout(found, low, high))
    }
}

/// Builds the layout from the spans found, which are in the order of `WANTED`.
fn layout(found: [Option<Span>; 8], low: u64, high: u64) -> Layout
    ensures { result ≡ layout_of found low high }
{
    let [
        debug_info,
        debug_abbrev,
        debug_line,
        debug_line_str,
        debug_str,
        debug_str_offsets,
        debug_addr,
        debug_rnglists,
    ] = found;
    Layout {
        debug_info: debug_info.unwrap_or(NOWHERE),
        debug_abbrev: debug_abbrev.unwrap_or(NOWHERE),
        debug_line: debug_line.unwrap_or(NOWHERE),
        debug_line_str: debug_line_str.unwrap_or(NOWHERE),
        debug_str: debug_str.unwrap_or(NOWHERE),
        debug_str_offsets: debug_str_offsets.unwrap_or(NOWHERE),
        debug_addr: debug_addr.unwrap_or(NOWHERE),
        debug_rnglists: debug_rnglists.unwrap_or(NOWHERE),
        low,
        high,
    }
}

fn elf(cause: Cause, at: u64) -> LoadFault
    ensures { result ≡ record { section = sections.Elf; cause = cause; at = at } }
{
    LoadFault {
        section: Section::Elf,
        cause,
        at,
    }
}

/// Extends the address range by one program header, or returns the fault of the header.
fn with_program_header(
    extent: Option<(u64, u64)>,
    entry: &ProgramHeader,
) -> Result<Option<(u64, u64)>, LoadFault>
    ensures { MatchResult result (λ after. with_program_header extent entry.now ≡ Ok after)
        (λ fault. with_program_header extent entry.now ≡ Err fault) }
{
    if !entry.is_load() {
        return Ok(extent);
    }
    let Some(end) = entry.vaddr.checked_add(entry.memsz) else {
        return Err(elf(Cause::Range, entry.at));
    };
    Ok(Some(match extent {
        None => (entry.vaddr, end),
        Some((low, high)) => (low.min(entry.vaddr), high.max(end)),
    }))
}

/// Returns the address range of the load segments: the lowest address and the end (exclusive).
fn extent(bytes: &[u8], header: &FileHeader) -> Result<(u64, u64), LoadFault>
    requires header { header.now ≡ file_header bytes.now }
    requires segments { 0 < header.now.phnum →
        header.now.phoff + 56 * header.now.phnum ≤ length bytes.now }
    ensures { MatchResult result (λ extent. (first_fault sections.Elf (load_items bytes.now) ≡ None)
        × (extent.0 ≡ low bytes.now) × (extent.1 ≡ high bytes.now))
        (λ fault. first_fault sections.Elf (load_items bytes.now) ≡ Some fault) }
{
    let mut extent = None;
    for k in 0..usize::from(header.phnum) {
        let entry = program_header(bytes, header.phoff as usize + 56 * k);
        extent = with_program_header(extent, &entry)?;
    }
    extent.ok_or(elf(Cause::NoLoad, 0))
}

/// Parses the k-th section header.
#[tactic(auto, unfolding(crate::specs::Elf::section_header))]
fn nth_section(bytes: &[u8], header: &FileHeader, k: u16) -> SectionHeader
    requires header { header.now ≡ file_header bytes.now }
    requires within { k < header.now.shnum }
    requires sections { header.now.shoff + 64 * header.now.shnum ≤ length bytes.now }
    ensures { result ≡ section_header bytes.now k }
{
    section_header_at(bytes, header.shoff as usize + 64 * usize::from(k))
}

/// Returns the bytes of the section that contains the section names.
#[tactic(auto, unfolding(crate::specs::Elf::names))]
fn name_section<'a>(bytes: &'a [u8], header: &FileHeader) -> Result<&'a [u8], LoadFault>
    requires header { header.now ≡ file_header bytes.now }
    requires within { header.now.shstrndx < header.now.shnum }
    requires sections { header.now.shoff + 64 * header.now.shnum ≤ length bytes.now }
    ensures { MatchResult result (λ found. (item_fault sections.Elf (names_item bytes.now) ≡ None)
        × (found.now ≡ names bytes.now))
        (λ fault. item_fault sections.Elf (names_item bytes.now) ≡ Some fault) }
{
    let entry = nth_section(bytes, header, header.shstrndx);
    if entry.is_nobits() || entry.is_compressed() || is_outside(bytes, entry.offset, entry.size) {
        return Err(elf(Cause::Table, entry.at));
    }
    let start = entry.offset as usize;
    Ok(&bytes[start..start + entry.size as usize])
}

/// Validates the header of a wanted section. `is_seen` says whether an earlier header has its name.
fn wanted_fault(bytes: &[u8], entry: &SectionHeader, is_seen: bool) -> Option<Cause>
    ensures { result ≡ first_failure (wanted_tests bytes.now entry.now is_seen) }
{
    if is_seen {
        return Some(Cause::SectionTwice);
    }
    if entry.is_nobits() {
        return Some(Cause::Table);
    }
    if entry.is_compressed() {
        return Some(Cause::Compressed);
    }
    if is_outside(bytes, entry.offset, entry.size) {
        return Some(Cause::Table);
    }
    None
}

/// Validates the k-th header, and records its span if its section is wanted.
fn with_section(
    bytes: &[u8],
    header: &FileHeader,
    section_names: &SectionNames<'_>,
    mut found: [Option<Span>; 8],
    k: u16,
) -> Result<[Option<Span>; 8], LoadFault>
    requires header { header.now ≡ file_header bytes.now }
    requires within { k < header.now.shnum }
    requires sections { header.now.shoff + 64 * header.now.shnum ≤ length bytes.now }
    requires names { section_names.now ≡ names bytes.now }
    requires found { found ≡ spans_before bytes.now k }
    ensures { MatchResult result (λ after.
        (item_fault sections.Elf (section_item bytes.now k) ≡ None)
        × (after ≡ spans_before bytes.now (k + 1)))
        (λ fault. item_fault sections.Elf (section_item bytes.now k) ≡ Some fault) }
{
    let entry = nth_section(bytes, header, k);
    let Ok(number) = section_names.wanted_index(u64::from(entry.name)) else {
        return Err(elf(Cause::Table, entry.at));
    };
    let Some(number) = number else {
        return Ok(found);
    };
    if let Some(cause) = wanted_fault(bytes, &entry, found[number].is_some()) {
        return Err(elf(cause, entry.at));
    }
    found[number] = Some(Span {
        place: entry.offset as usize,
        len: entry.size as usize,
    });
    Ok(found)
}

/// Finds the spans of the wanted sections. Returns the fault of the first invalid header.
fn sections(bytes: &[u8], header: &FileHeader) -> Result<[Option<Span>; 8], LoadFault>
    requires header { header.now ≡ file_header bytes.now }
    requires sound { is_invalid_section_table bytes.now header.now ≡ false }
    ensures { MatchResult result (λ found.
        (first_fault sections.Elf (section_items bytes.now) ≡ None)
        × (found ≡ spans_before bytes.now header.now.shnum))
        (λ fault. first_fault sections.Elf (section_items bytes.now) ≡ Some fault) }
{
    let mut found = [None; 8];
    if header.shnum == 0 {
        return Ok(found);
    }
    let section_names = SectionNames::of(name_section(bytes, header)?);
    for k in 0..header.shnum {
        found = with_section(bytes, header, &section_names, found, k)?;
    }
    Ok(found)
}

//! The units of an object, each with its entries and its bases (DWARF 5, 3.1.1 and 7.5).

ghost use Rattle.std.specs.Prelude.{◌≡◌};
ghost use Rattle.dwarf_bytes.specs.{Items.with_offset, Refusals.{Decodes, in_section}};
ghost use Rattle.dwarf_bytes.specs.declared.fault.Section.TheVariants as names;
ghost use Rattle.dwarf_ranges.specs.Bases.{bases_at};
ghost use Rattle.dwarf_units.specs.Units.{tables_of};
ghost use Rattle.dwarf_walk.specs.{Sections.sections_of, Stored.root_entry};
ghost use Rattle.dwarf_entries.specs.Units.{unit_of, bases_of_first, with_bases as unit_with_bases};
ghost use Rattle.dwarf_entries.specs.Units.{all_entries, all_bases};

use crate::entries::{Die, entries};
use dwarf_bytes::constants::*;
use dwarf_bytes::{Format, LoadFault, Section};
use dwarf_forms::Abbrevs;
use dwarf_ranges::{Bases, root_bases};
use dwarf_units::UnitHeader;
use dwarf_walk::{RootEntry, Sections};
use std::alloc::Global;
use std::marker::Model;

/// The maximum number of declarations that are read for all units of an object.
const DECLARATIONS_LIMIT: u64 = 4_194_304;

/// A unit with its entries, before its root is read.
#[derive(Drop)]
pub(crate) struct ParsedUnit {
    header: UnitHeader,
    dies: Vec<Die>,
}

impl Model for ParsedUnit {
    ghost use Rattle.dwarf_entries.specs.Units.{CompilationUnit};
    ghost use Rattle.dwarf_ranges.specs.Bases.{no_bases};

    ghost Value = { CompilationUnit };

    ghost view = { λ u. record { header = u.header; dies = u.dies.items; bases = no_bases } };
}

/// A unit with its entries and with the bases that its root defines.
#[derive(Drop)]
pub(crate) struct CompilationUnit<'a> {
    unit: &'a ParsedUnit,
    bases: Bases,
}

impl<'a> Model for CompilationUnit<'a> {
    ghost use Rattle.dwarf_entries.specs.Units.{CompilationUnit as Whole};

    ghost Value = { Whole };

    ghost view = { λ u.
        record { header = u.unit.now.header; dies = u.unit.now.dies; bases = u.bases } };
}

impl ParsedUnit {
    fn header(&self) -> &UnitHeader
        ensures { result.now ≡ self.now.header }
    {
        &self.header
    }

    fn dies(&self) -> &[Die]
        ensures { result.now ≡ self.now.dies }
    {
        &self.dies
    }
}

impl<'a> CompilationUnit<'a> {
    pub(crate) fn start(&self) -> usize
        ensures { result ≡ self.now.header.start }
    {
        self.unit.header().start
    }

    pub(crate) fn dies(&self) -> &'a [Die]
        ensures { result.now ≡ self.now.dies }
    {
        self.unit.dies()
    }

    pub(crate) fn bases(&self) -> &Bases
        ensures { result.now ≡ self.now.bases }
    {
        &self.bases
    }
}

/// Parses the abbreviation table of each unit.
pub(crate) fn tables(
    alloc: Global,
    section: &[u8],
    headers: &[UnitHeader],
) -> Result<Vec<Abbrevs>, LoadFault>
    ensures { Decodes (λ tables. tables.items) result (in_section names.DebugAbbrev
        (tables_of section.now headers.now)) }
{
    let mut all = Vec::new(alloc);
    let mut left = DECLARATIONS_LIMIT;
    for header in headers {
        let table = Abbrevs::read(alloc, section, header.abbreviations, &mut left)?;
        all.push(table)?;
    }
    Ok(all)
}

/// Reads the entries of a unit.
fn unit_entries(
    alloc: Global,
    info: &[u8],
    header: &UnitHeader,
    table: &Abbrevs,
) -> Result<ParsedUnit, LoadFault>
    ensures { Decodes (λ unit. unit) result (in_section names.DebugInfo
        (unit_of info.now header.now table.now)) }
{
    let dies = entries(alloc, info, header, table.decls())?;
    Ok(ParsedUnit {
        header: *header,
        dies,
    })
}

/// Reads the entries of all units, whose tables are given.
pub(crate) fn all_entries(
    alloc: Global,
    info: &[u8],
    headers: &[UnitHeader],
    tables: &[Abbrevs],
) -> Result<Vec<ParsedUnit>, LoadFault>
    ensures { Decodes (λ units. units.items) result (in_section names.DebugInfo
        (all_entries info.now headers.now tables.now)) }
{
    let mut units = Vec::new(alloc);
    for index in 0..headers.len().min(tables.len()) {
        let unit = unit_entries(alloc, info, &headers[index], &tables[index])?;
        units.push(unit)?;
    }
    Ok(units)
}

/// Returns the attributes of a root that describe its unit.
fn root_entry(root: &Die) -> RootEntry
    ensures { result ≡ root_entry root.now }
{
    RootEntry {
        offset: root.offset(),
        stmt_list: root.attribute(DW_AT_STMT_LIST).map(|value| value.number),
        str_offsets_base: root.attribute(DW_AT_STR_OFFSETS_BASE),
        addr_base: root.attribute(DW_AT_ADDR_BASE),
        rnglists_base: root.attribute(DW_AT_RNGLISTS_BASE),
        low_pc: root.attribute(DW_AT_LOW_PC),
    }
}

/// Returns the bases that a root defines. A fault is reported at the offset of the root.
fn bases_of_root(sections: &Sections<'_>, format: Format, root: &Die) -> Result<Bases, LoadFault>
    ensures { Decodes (λ bases. bases) result (in_section names.DebugInfo
        (with_offset root.now.offset (bases_at (sections_of sections.now) format root.now))) }
{
    match root_bases(sections, format, &root_entry(root)) {
        Ok(bases) => Ok(bases),
        Err(cause) => {
            let at = root.offset() as u64;
            Err(LoadFault::at_item(Section::DebugInfo, cause, at))
        }
    }
}

/// Returns the bases that the first entry of a unit defines.
fn bases_of_unit(sections: &Sections<'_>, unit: &ParsedUnit) -> Result<Bases, LoadFault>
    ensures { Decodes (λ bases. bases) result (in_section names.DebugInfo (bases_of_first
        (sections_of sections.now) unit.now.header.format unit.now.dies)) }
{
    match unit.dies().first() {
        None => Ok(Bases {
            str_offsets: None,
            addr: None,
            rnglists: None,
            low_pc: None,
        }),
        Some(root) => bases_of_root(sections, unit.header().format, root),
    }
}

/// Returns a unit with the bases that its root defines.
fn with_bases<'a>(
    sections: &Sections<'_>,
    unit: &'a ParsedUnit,
) -> Result<CompilationUnit<'a>, LoadFault>
    ensures { Decodes (λ unit. unit) result (in_section names.DebugInfo
        (unit_with_bases (sections_of sections.now) unit.now)) }
{
    let bases = bases_of_unit(sections, unit)?;
    Ok(CompilationUnit { unit, bases })
}

/// Returns all units with the bases that their roots define.
pub(crate) fn all_bases<'a>(
    alloc: Global,
    sections: &Sections<'_>,
    parsed: &'a [ParsedUnit],
) -> Result<Vec<CompilationUnit<'a>>, LoadFault>
    ensures { Decodes (λ units. units.items) result (in_section names.DebugInfo
        (all_bases (sections_of sections.now) parsed.now)) }
{
    let mut units = Vec::new(alloc);
    for unit in parsed {
        units.push(with_bases(sections, unit)?)?;
    }
    Ok(units)
}

//! The passes over all units: their entries, and the bases that their roots define.

ghost use Rattle.std.specs.Prelude.{◌≡◌, List, Ok, map};
ghost use Rattle.dwarf_bytes.specs.declared.fault.Section.TheVariants as names;
ghost use Rattle.dwarf_bytes.specs.Refusals.{Decodes, in_section};
ghost use Rattle.dwarf_forms.specs.Declarations.{Declaration};
ghost use Rattle.dwarf_units.specs.Units.{tables_of};
ghost use Rattle.dwarf_walk.specs.Sections.{sections_of};
ghost use Rattle.dwarf_walk.specs.EntryBitmap.{AddsOffsets};
ghost use Rattle.dwarf_entries.specs.Units.{CompilationUnit};
ghost use Rattle.dwarf_entries.specs.Private.EntryOffsets.{AreStored, all_offsets};
ghost use Rattle.dwarf_entries.specs.{Passes.PassGives, Units.{all_entries, all_bases}};
ghost use Rattle.dwarf_entries.specs.Private.Passes.{bases_in, bases_of};

use dwarf_bytes::{LoadFault, Section};
use dwarf_ranges::{Bases, root_bases};
use dwarf_units::{Tables, UnitHeader};
use dwarf_walk::{EntryBitmap, Sections, UnitEntries, entries};
use std::alloc::Global;

/// Parses the entries of all units, whose tables are valid. Sets the bit of each entry in `bitmap`.
pub(crate) fn all_entries(
    alloc: Global,
    sections: &Sections<'_>,
    headers: &[UnitHeader],
    tables: &mut Tables<'_>,
    bitmap: &mut EntryBitmap,
) -> Result<Vec<UnitEntries>, LoadFault>
    requires { tables.old.section ≡ sections.now.debug_abbrev.now }
    ensures section { tables.new.section ≡ tables.old.section }
    ensures units { (all : List (List Declaration))
        → tables_of sections.now.debug_abbrev.now headers.now ≡ Ok all
        → PassGives (λ units us. AreStored units.items us
        × AddsOffsets bitmap.old bitmap.new (all_offsets us)) result
        (all_entries sections.now.debug_info.now headers.now all) }
{
    let mut units = Vec::new(alloc);
    for header in headers {
        let number = tables.number_of(alloc, header)?;
        let table = tables.table(number);
        let info = sections.debug_info;
        let unit = entries(alloc, info, *header, number, &table, bitmap)?;
        units.push(unit)?;
    }
    Ok(units)
}

/// Returns the bases that the roots of all units define.
pub(crate) fn all_bases(
    alloc: Global,
    sections: &Sections<'_>,
    units: &[UnitEntries],
) -> Result<Vec<Bases>, LoadFault>
    ensures { (us : List CompilationUnit) → AreStored units.now us
        → PassGives (λ bases all. bases.items ≡ map bases_of all) result
        (all_bases (sections_of sections.now) us) }
{
    let mut all = Vec::new(alloc);
    for unit in units {
        all.push(unit_bases(sections, unit)?)?;
    }
    Ok(all)
}

/// Returns the bases that the root of a unit defines. A unit without entries has no bases.
fn unit_bases(sections: &Sections<'_>, unit: &UnitEntries) -> Result<Bases, LoadFault>
    ensures { Decodes (λ bases. bases) result (in_section names.DebugInfo (bases_in
        (sections_of sections.now) unit.now.header.format unit.now.root)) }
{
    match &unit.root {
        None => Ok(Bases {
            str_offsets: None,
            addr: None,
            rnglists: None,
            low_pc: None,
        }),
        Some(root) => match root_bases(sections, unit.header.format, root) {
            Ok(bases) => Ok(bases),
            Err(cause) => Err(LoadFault::at_item(Section::DebugInfo, cause, root.offset as u64)),
        },
    }
}

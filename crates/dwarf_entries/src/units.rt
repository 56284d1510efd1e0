//! The units of an object, with everything that is needed to look up their entries and names.

ghost use Rattle.std.specs.{Prelude.{◌≡◌, ◌<◌, ◌^◌, IfOk}, List.Sorted.IsNonDecreasingBy};
ghost use Rattle.dwarf_bytes.specs.Refusals.{Decodes, Builds};
ghost use Rattle.dwarf_walk.specs.Sections.{sections_of};
ghost use Rattle.dwarf_entries.specs.{Units.units_read, Scopes.roots_from};
ghost use Rattle.dwarf_entries.specs.Private.Passes.{number_of_scopes};

use crate::name_cache::NameCache;
use crate::passes::{all_bases, all_entries};
use crate::scope::Root;
use crate::string_sections::StringSections;
use dwarf_bytes::LoadFault;
use dwarf_ranges::Bases;
use dwarf_units::{Tables, units};
use dwarf_walk::{EntryBitmap, EntryReader, Sections, UnitEntries};
use std::alloc::Global;
use std::marker::Model;

/// The units of an object, the bitmap of their entries, and the bases that their roots define. An
/// entry is re-read when it is needed, and the names of reference targets are cached.
#[derive(Drop)]
pub(crate) struct Units<'a> {
    pub(crate) sections: &'a Sections<'a>,
    pub(crate) units: Vec<UnitEntries>,
    pub(crate) bitmap: EntryBitmap,
    pub(crate) bases: Vec<Bases>,
    pub(crate) strings: StringSections<'a>,
    pub(crate) reader: EntryReader<'a>,
    pub(crate) cache: NameCache,
}

impl<'a> Model for Units<'a> {
    ghost use Rattle.dwarf_walk.specs.Sections.{sections_of};
    ghost use Rattle.dwarf_entries.specs.Private.ObjectUnits.{ObjectUnits, AreUnitsOf};
    ghost use Rattle.dwarf_entries.specs.Private.ObjectUnits.{units_of_object};

    ghost Value = { ObjectUnits };

    ghost view = { λ u. units_of_object (sections_of u.sections.now) };

    ghost invariant = { λ u. AreUnitsOf (units_of_object (sections_of u.sections.now)) u };
}

impl<'a> Units<'a> {
    /// Parses all units: their headers, abbreviation tables, entries and roots. Each pass covers
    /// all units before the next one starts. A fault is reported at its unit, declaration or
    /// entry, as an offset relative to the start of its section.
    #[tactic(auto, unfolding(crate::specs::Units::units_read))]
    pub(crate) fn read(alloc: Global, sections: &'a Sections<'a>) -> Result<Units<'a>, LoadFault>
        ensures units { Decodes (λ read. read.units) result
            (units_read (sections_of sections.now)) }
        ensures sections { IfOk result (λ read. read.sections ≡ sections_of sections.now) }
    {
        let headers = units(alloc, sections.debug_info)?;
        let mut bitmap = EntryBitmap::new(alloc, sections.debug_info.len())?;
        let mut tables = Tables::validate(alloc, sections.debug_abbrev, headers.as_slice())?;
        let headers = headers.as_slice();
        let units = all_entries(alloc, sections, headers, &mut tables, &mut bitmap)?;
        let bases = all_bases(alloc, sections, units.as_slice())?;
        Ok(Units {
            sections,
            units,
            bitmap,
            bases,
            strings: StringSections::of(sections),
            reader: EntryReader::new(alloc, sections, tables),
            cache: NameCache::new(alloc),
        })
    }

    /// Returns the roots of the units, each with the numbers of its scopes.
    pub(crate) fn roots(&self, alloc: Global) -> Result<Vec<Root>, LoadFault>
        requires { number_of_scopes self.now.units < 2 ^ 63 }
        ensures roots { Builds (λ roots. roots.items) result (roots_from 0 self.now.units) }
        ensures order { IfOk result (λ roots. IsNonDecreasingBy (λ root. root.past) roots.items) }
    {
        let mut roots = Vec::new(alloc);
        let mut first = 0;
        for unit in &self.units {
            let past = first + unit.scopes.len();
            if let Some(root) = unit.root {
                let root = Root {
                    offset: root.offset,
                    stmt_list: root.stmt_list,
                    first,
                    past,
                };
                roots.push(root)?;
            }
            first = past;
        }
        Ok(roots)
    }
}

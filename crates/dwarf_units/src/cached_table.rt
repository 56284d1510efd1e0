//! A cached abbreviation table (DWARF 5, 7.5.3).

ghost use Rattle.std.specs.Prelude.{◌≡◌, ◌≤◌, ◌↔◌, length, IfOk, IsTrue};
ghost use Rattle.dwarf_bytes.specs.Refusals.{Decodes, in_section};
ghost use Rattle.dwarf_forms.specs.Tables.{declarations_of};
ghost use Rattle.dwarf_units.specs.{AbbreviationTables.table_key, Tables.IsAt};
ghost use Rattle.dwarf_bytes.specs.declared.fault.Section.TheVariants as sections;

use crate::abbreviation_table::AbbreviationTable;
use crate::linked_lists::LinkedLists;
use crate::node_layout::{NodeLayout, layouts};
use crate::unit_headers::UnitHeader;
use dwarf_bytes::{Format, LoadFault};
use std::alloc::Global;
use std::marker::Model;

/// An abbreviation table and the layouts of nodes by their codes.
#[derive(Drop)]
pub(crate) struct CachedTable<'a> {
    pub(crate) table: AbbreviationTable<'a>,
    pub(crate) layouts: Vec<Option<NodeLayout>>,
}

impl<'a> Model for CachedTable<'a> {
    ghost use Rattle.dwarf_units.specs.AbbreviationTables.{Table};
    ghost use Rattle.dwarf_units.specs.{NodeShapes.code_count, Private.NodeLayouts.AreLayouts};

    ghost Value = { Table };

    ghost view = { λ t. t.table };

    ghost invariant = { λ t. AreLayouts t.table.format t.table.declarations
        (code_count t.table.declarations) t.layouts.items };
}

impl<'a> CachedTable<'a> {
    /// Parses the table at an offset, as `AbbreviationTable::read` does.
    pub(crate) fn read(
        alloc: Global,
        linked: &mut LinkedLists<'a>,
        format: Format,
        offset: u64,
        budget: u64,
    ) -> Result<CachedTable<'a>, LoadFault>
        ensures decodes { Decodes (λ table. table.declarations) result
            (in_section sections.DebugAbbrev (declarations_of budget linked.old offset)) }
        ensures few { IfOk result (λ table. length table.declarations ≤ budget) }
        ensures at { IfOk result (λ table. (table.section ≡ linked.old)
            × IsAt format offset table) }
        ensures section { linked.new ≡ linked.old }
    {
        let table = AbbreviationTable::read(alloc, linked, format, offset, budget)?;
        let layouts = layouts(alloc, &table)?;
        Ok(CachedTable { table, layouts })
    }

    /// Returns the key of the table in the map of the indexes.
    pub(crate) fn key(&self) -> u128
        ensures { result ≡ table_key self.now.format self.now.offset }
    {
        table_key(self.table.format, self.table.offset)
    }

    /// Returns whether a unit uses this table: the offset and the format are equal.
    pub(crate) fn is_of(&self, header: &UnitHeader) -> bool
        ensures { IsTrue result ↔ IsAt header.now.format header.now.abbreviations self.now }
    {
        self.table.offset == header.abbreviations && self.table.format == header.format
    }
}

/// Returns the key of the table at an offset, for units of a format.
pub(crate) fn table_key(format: Format, offset: u64) -> u128
    ensures { result ≡ table_key format offset }
{
    match format {
        Format::Dwarf32 => 2 * u128::from(offset),
        Format::Dwarf64 => 2 * u128::from(offset) + 1,
    }
}

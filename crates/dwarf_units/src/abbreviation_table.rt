//! Abbreviation tables for units of a format (DWARF 5, 7.5.3).

ghost use Rattle.std.specs.Prelude.{Err, IfNone, IfOk, IfSome, None, Ok, length, ◌≡◌, ◌≤◌, ◌⊎◌};
ghost use Rattle.dwarf_bytes.specs.Refusals.{Decodes, in_section, memory_fault};
ghost use Rattle.dwarf_forms.specs.Tables.{declarations_of};
ghost use Rattle.dwarf_units.specs.{AbbreviationTables.table_size, Entries.declaration_of};
ghost use Rattle.dwarf_units.specs.{Private.Declarations.IsDeclaration, Tables.IsAt};
ghost use Rattle.dwarf_bytes.specs.declared.fault.Section.TheVariants as sections;

use crate::attribute_runs::AttributeRuns;
use crate::linked_lists::LinkedLists;
use dwarf_bytes::{Cause, Cursor, Format, LoadFault};
use dwarf_forms::Abbrevs;
use dwarf_forms::steps::{CodeIndex, Head};
use std::alloc::{AllocError, Global};
use std::marker::Model;

/// An abbreviation declaration, as entries are read by it.
#[derive(Drop)]
pub(crate) struct AbbreviationDeclaration {
    pub(crate) head: Head,
    /// The offset of the attributes in `.debug_abbrev`.
    attributes: usize,
    /// The first `UNSHARED` attributes.
    pub(crate) runs: AttributeRuns,
    /// The offset of the others in `.debug_abbrev`.
    pub(crate) rest: Option<usize>,
}

/// The declarations of a table, in order, without duplicate codes.
#[derive(Drop)]
pub(crate) struct AbbreviationTable<'a> {
    section: &'a [u8],
    pub(crate) offset: u64,
    pub(crate) format: Format,
    declarations: Vec<AbbreviationDeclaration>,
    codes: CodeIndex,
    /// The number of unshared attributes of all declarations.
    unshared: u128,
}

impl<'a> Model for AbbreviationTable<'a> {
    ghost use Rattle.std.specs.{List.All, Prelude.{length, map, ◌*◌, ◌≡◌, ◌≤◌}};
    ghost use Rattle.abbreviation_memo.specs.declared.list_end.TheConstants.{UNSHARED};
    ghost use Rattle.dwarf_units.specs.AbbreviationTables.{Table, unshared_count};
    ghost use Rattle.dwarf_units.specs.Private.Declarations.{IsStored, full_declarations};

    ghost Value = { Table };

    ghost view = { λ t. record {
      section = t.section.now;
      offset = t.offset;
      format = t.format;
      declarations = full_declarations t.section.now t.declarations.items;
    } };

    ghost invariant = { λ t. All (IsStored t.section.now t.format) t.declarations.items
        × (t.codes ≡ map (λ d. d.head.code) t.declarations.items)
        × (t.unshared ≡ unshared_count (full_declarations t.section.now t.declarations.items))
        × (t.unshared ≤ UNSHARED * length t.declarations.items) };
}

impl<'a> AbbreviationTable<'a> {
    /// Parses the table at `offset` from the start of `.debug_abbrev`, up to the code 0 that ends
    /// it. It may have at most `budget` declarations. A fault has the offset of its declaration.
    /// Memoized suffixes of attribute lists are not re-read, and new ones are memoized in `linked`.
    pub(crate) fn read(
        alloc: Global,
        linked: &mut LinkedLists<'a>,
        format: Format,
        offset: u64,
        budget: u64,
    ) -> Result<AbbreviationTable<'a>, LoadFault>
        ensures decodes { Decodes (λ table. table.declarations) result
            (in_section sections.DebugAbbrev (declarations_of budget linked.old offset)) }
        ensures few { IfOk result (λ table. length table.declarations ≤ budget) }
        ensures at { IfOk result (λ table. (table.section ≡ linked.old)
            × IsAt format offset table) }
        ensures section { linked.new ≡ linked.old }
    {
        match AbbreviationTable::parse(alloc, linked, format, offset, budget) {
            Ok(table) => Ok(table),
            Err(_) => Err(fault_of(alloc, linked.section(), offset, budget)),
        }
    }

    /// Parses the table at `offset`, with at most `budget` declarations. An error says only that
    /// the table is to be parsed alone, which reports its fault.
    fn parse(
        alloc: Global,
        linked: &mut LinkedLists<'a>,
        format: Format,
        offset: u64,
        budget: u64,
    ) -> Result<AbbreviationTable<'a>, Cause>
        ensures table { IfOk result (λ table. in_section sections.DebugAbbrev
            (declarations_of budget linked.old offset) ≡ Ok table.declarations) }
        ensures few { IfOk result (λ table. length table.declarations ≤ budget) }
        ensures at { IfOk result (λ table. (table.section ≡ linked.old)
            × IsAt format offset table) }
        ensures section { linked.new ≡ linked.old }
    {
        let section = linked.section();
        let mut cursor = Cursor::new(section);
        cursor.seek(offset as usize)?;
        let mut declarations = Vec::new(alloc);
        let mut codes = CodeIndex::new(alloc);
        let mut first = Vec::new(alloc);
        let mut unshared = 0u128;
        while let Some(head) = Head::next(&codes, budget, &mut cursor)? {
            let attributes = cursor.place();
            let list = linked.read_specifications(&mut first, attributes)?;
            cursor.seek(list.after)?;
            unshared += first.len() as u128;
            let runs = AttributeRuns::of(alloc, format, &first)?;
            codes.push(head.code)?;
            declarations.push(AbbreviationDeclaration {
                head,
                attributes,
                runs,
                rest: list.rest,
            })?;
        }
        declarations.shrink_to_fit();
        Ok(AbbreviationTable {
            section,
            offset,
            format,
            declarations,
            codes,
            unshared,
        })
    }

    /// Returns the number of declarations.
    pub(crate) fn len(&self) -> u64
        ensures { result ≡ length self.now.declarations }
    {
        self.declarations.len() as u64
    }

    /// Returns the size of the table.
    pub(crate) fn size(&self) -> u128
        ensures { result ≡ table_size self.now }
    {
        5 * u128::from(self.len()) + 2 * self.unshared
    }

    /// Returns the declaration of a code.
    pub(crate) fn find(&self, code: u64) -> Option<&AbbreviationDeclaration>
        ensures some { IfSome result (λ found. IsDeclaration self.now code found.now) }
        ensures none { IfNone result (declaration_of self.now.declarations code ≡ None) }
    {
        self.declarations.get(self.codes.position(code)?)
    }
}

/// Parses the table at `offset` alone and returns its fault. If it has none, memory ran out.
fn fault_of(alloc: Global, section: &[u8], offset: u64, budget: u64) -> LoadFault
    ensures { (result ≡ memory_fault) ⊎ (in_section sections.DebugAbbrev
        (declarations_of budget section.now offset) ≡ Err result) }
{
    let mut left = budget;
    match Abbrevs::read(alloc, section, offset, &mut left) {
        Ok(_) => AllocError.into(),
        Err(fault) => fault,
    }
}

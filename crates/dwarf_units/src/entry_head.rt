//! Reading entries and null entries of a unit (DWARF 5, 2.3, 7.5.2 and 7.5.3).

ghost use Rattle.std.specs.Prelude.{IfOk, IsSome, option_map, ◌≡◌, ◌≤◌};
ghost use Rattle.dwarf_bytes.specs.Refusals.{ReadsField};
ghost use Rattle.dwarf_units.specs.Entries.{declaration_of, depth_limit};
ghost use Rattle.dwarf_units.specs.Heads.{ReturnsAndFills, head_at, head_in, used_entry_at};
ghost use Rattle.dwarf_units.specs.StoredAttributes.{Fills, used_attributes_at};

use crate::abbreviation_table::AbbreviationDeclaration;
use crate::linked_lists::LinkedLists;
use crate::unit_table::UnitTable;
use crate::used_attributes::UsedAttributes;
use dwarf_bytes::{Cause, Cursor, Format};
use std::marker::Model;

/// The maximum depth of an entry. The root of a unit has depth 0.
pub(crate) const DEPTH_LIMIT: u32 = 256;

/// The declaration of an entry in a unit of a given format.
#[derive(Drop)]
pub struct EntryHead<'a> {
    format: Format,
    declaration: &'a AbbreviationDeclaration,
    linked: &'a LinkedLists<'a>,
}

impl<'a> Model for EntryHead<'a> {
    ghost use Rattle.dwarf_units.specs.Private.Declarations.{IsStored, full_declaration};
    ghost use Rattle.dwarf_units.specs.Heads.{Head};

    ghost Value = { Head };

    ghost view = { λ h. record {
      format = h.format;
      declaration = full_declaration h.linked.now h.declaration.now;
    } };

    ghost invariant = { λ h. IsStored h.linked.now h.format h.declaration.now };
}

impl<'a> UnitTable<'a> {
    /// Returns the head of the entries with a code, if the code is declared.
    fn find(&self, code: u64) -> Option<EntryHead<'a>>
        ensures { result
            ≡ option_map (head_in self.now) (declaration_of self.now.declarations code) }
    {
        let cached = self.table;
        let table = &cached.table;
        Some(EntryHead {
            format: table.format,
            declaration: table.find(code)?,
            linked: self.linked,
        })
    }

    /// Reads the code of the entry at the cursor and returns its head, or `None` for a null entry.
    /// `rooted` is whether the root of the unit is before it. Fails if the code is not declared,
    /// if the entry is a second root, or if `depth` exceeds the limit.
    // Inlined: called for each entry of a variable size.
    #[inline(always)]
    pub fn head(
        &self,
        depth: u32,
        rooted: bool,
        cursor: &mut Cursor,
    ) -> Result<Option<EntryHead<'_>>, Cause>
        ensures reads { ReadsField (λ head. head) result (head_at self.now depth rooted)
            cursor.old cursor.new }
        ensures limit { IfOk result (λ head. IsSome head → depth ≤ depth_limit) }
    {
        let code = cursor.uleb()?;
        if code == 0 {
            return Ok(None);
        }
        let head = self.find(code).ok_or(Cause::AbbrevCode)?;
        if depth == 0 && rooted {
            return Err(Cause::TwoRoots);
        }
        if depth > DEPTH_LIMIT {
            return Err(Cause::TooDeep);
        }
        Ok(Some(head))
    }

    /// Re-reads the entry at the cursor without regard to the entries before it. Replaces the
    /// contents of `found` by its used attributes and returns its tag. Fails on a null entry,
    /// because a null entry has no declaration.
    #[tactic(auto, unfolding(crate::specs::Entries::entry_at))]
    pub fn read_entry(&self, cursor: &mut Cursor, found: &mut UsedAttributes) -> Result<u64, Cause>
        ensures { ReturnsAndFills result found.new (used_entry_at self.now)
            cursor.old cursor.new }
    {
        let code = cursor.uleb()?;
        let head = self.find(code).ok_or(Cause::AbbrevCode)?;
        head.read_attributes(true, cursor, found)?;
        Ok(head.tag())
    }
}

impl<'a> EntryHead<'a> {
    pub fn tag(&self) -> u64
        ensures { result ≡ self.now.declaration.tag }
    {
        self.declaration.head.tag
    }

    /// Returns whether the entry is followed by its children.
    pub fn children(&self) -> bool
        ensures { result ≡ self.now.declaration.children }
    {
        self.declaration.head.children
    }

    /// Reads the attributes of the entry, which start at the cursor. Replaces the contents of
    /// `found` by the used attributes if `keep` is set, and otherwise by none.
    // Inlined: called for each entry.
    #[inline(always)]
    #[tactic(auto, using(crate::proofs::RunReads::all_reads))]
    pub fn read_attributes(
        &self,
        keep: bool,
        cursor: &mut Cursor,
        found: &mut UsedAttributes,
    ) -> Result<(), Cause>
        ensures { Fills result found.new (used_attributes_at keep self.now.format
            self.now.declaration.attributes) cursor.old cursor.new }
    {
        // The contract of `place` is needed: the offset is within the bytes or at their end.
        let _ = cursor.place();
        found.clear();
        let declaration = self.declaration;
        declaration.runs.read(keep, self.format, cursor, found)?;
        self.linked
            .read(keep, self.format, declaration.rest, cursor, found)
    }
}

//! Abbreviation tables (DWARF 5, 7.5.3).

ghost use Rattle.std.specs.Prelude.{◌≡◌, ◌+◌, ◌≤◌, ◌==◌, [], ◌∷◌, ◌++◌, false, length, IfOk, OnOk};
ghost use Rattle.std.specs.{Prelude.{OnErr, IfSome}, List.list_any};
ghost use Rattle.dwarf_bytes.specs.Refusals.{Decodes, in_section, ReadsNext};
ghost use Rattle.dwarf_forms.specs.Tables.{codes_of, declarations_of, head_at};
ghost use Rattle.dwarf_forms.specs.Steps.{ExtendsTable};
ghost use Rattle.dwarf_bytes.specs.declared.fault.Section.TheVariants as sections;

use crate::attribute::attributes;
use crate::code_index::CodeIndex;
use crate::declaration::{Decl, Head};
use dwarf_bytes::{Cause, Cursor, LoadFault, Section};
use std::alloc::{AllocError, Global};
use std::marker::Model;

/// The declarations of one table of `.debug_abbrev`, in order, without duplicate codes.
#[derive(Drop)]
pub struct Abbrevs {
    decls: Vec<Decl>,
    codes: CodeIndex,
}

impl Model for Abbrevs {
    ghost use Rattle.std.specs.Prelude.{◌≡◌, List, map};
    ghost use Rattle.dwarf_forms.specs.Declarations.{Declaration};

    ghost Value = { List Declaration };

    ghost view = { λ t. t.decls.items };

    ghost invariant = { λ t. t.codes ≡ map (λ declaration. declaration.code) t.decls.items };
}

impl Abbrevs {
    /// Parses the table at `offset` from the start of `.debug_abbrev`, up to the code 0 that ends
    /// it. `left` is the number of declarations that may still be read; on success it decreases by
    /// the number of the table's declarations. A fault has the offset of its declaration.
    #[tactic(auto, using(crate::proofs::TableTurns::outside))]
    pub fn read(
        alloc: Global,
        section: &[u8],
        offset: u64,
        left: &mut u64,
    ) -> Result<Abbrevs, LoadFault>
        ensures decodes { Decodes (λ table. table) result (in_section sections.DebugAbbrev
            (declarations_of left.old section.now offset)) }
        ensures counted { IfOk result (λ table. left.new + length table ≡ left.old) }
        ensures unchanged { OnErr result (left.new ≡ left.old) }
    {
        let mut cursor = Cursor::new(section);
        if cursor.seek(offset as usize).is_err() {
            return Err(LoadFault::at_item(Section::DebugAbbrev, Cause::Short, offset));
        }
        let table = declarations(alloc, *left, &mut cursor)?;
        *left -= table.len() as u64;
        Ok(table)
    }

    /// Returns the declarations, in order.
    pub fn decls(&self) -> &[Decl]
        ensures { result.now ≡ self.now }
    {
        self.decls.as_slice()
    }

    fn new(alloc: Global) -> Abbrevs
        ensures { result ≡ [] }
    {
        Abbrevs {
            decls: Vec::new(alloc),
            codes: CodeIndex::new(alloc),
        }
    }

    fn len(&self) -> usize
        ensures { result ≡ length self.now }
    {
        self.decls.len()
    }

    /// Appends a declaration.
    #[tactic(auto, using(crate::proofs::Elements::any_map))]
    fn push(&mut self, decl: Decl) -> Result<(), AllocError>
        requires { list_any (λ declaration. declaration.code == decl.code) self.old ≡ false }
        ensures ok { OnOk result (self.new ≡ self.old ++ decl ∷ []) }
        ensures err { OnErr result (self.new ≡ self.old) }
    {
        let code = decl.code();
        self.decls.push(decl)?;
        if let Err(error) = self.codes.push(code) {
            let _ = self.decls.pop();
            return Err(error);
        }
        Ok(())
    }

    /// Reads the next declaration and appends it. Returns `false` at the code 0 that ends the
    /// table.
    fn extend(&mut self, alloc: Global, budget: u64, cursor: &mut Cursor) -> Result<bool, Cause>
        ensures { ExtendsTable result budget self.old self.new cursor.old cursor.new }
    {
        let Some(head) = self.next_head(budget, cursor)? else {
            return Ok(false);
        };
        let attributes = attributes(alloc, cursor)?;
        self.push(Decl::new(head, attributes))?;
        Ok(true)
    }

    /// Reads the next declaration up to its attributes, or returns `None` at the code 0.
    fn next_head(&self, budget: u64, cursor: &mut Cursor) -> Result<Option<Head>, Cause>
        ensures reads { ReadsNext result (λ bytes. head_at budget bytes (codes_of self.now))
            cursor.old cursor.new }
        ensures fresh { IfOk result (λ next. IfSome next (λ head.
            list_any (λ declaration. declaration.code == head.code) self.now ≡ false)) }
    {
        Head::next(&self.codes, budget, cursor)
    }
}

/// Parses the table at the cursor, with at most `budget` declarations.
fn declarations(alloc: Global, budget: u64, cursor: &mut Cursor) -> Result<Abbrevs, LoadFault>
    ensures decodes { Decodes (λ table. table) result (in_section sections.DebugAbbrev
        (declarations_of budget cursor.old.bytes cursor.old.place)) }
    ensures few { IfOk result (λ table. length table ≤ budget) }
{
    let mut table = Abbrevs::new(alloc);
    loop {
        let at = cursor.place() as u64;
        match table.extend(alloc, budget, cursor) {
            Ok(true) => {}
            Ok(false) => return Ok(table),
            Err(cause) => return Err(LoadFault::at_item(Section::DebugAbbrev, cause, at)),
        }
    }
}

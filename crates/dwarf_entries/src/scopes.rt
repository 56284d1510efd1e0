//! The subprograms and inlined subroutines of an object (DWARF 5, 3.3).

ghost use Rattle.std.specs.{Prelude.{◌≡◌, map, slice_get, nat_lt}, List.find};
ghost use Rattle.std.specs.List.Sorted.{IsNonDecreasingBy};
ghost use Rattle.dwarf_bytes.specs.Refusals.{Decodes};
ghost use Rattle.dwarf_walk.specs.Sections.{sections_of};
ghost use Rattle.dwarf_entries.specs.Scopes.{own, own_of, ranges_at, stmt_list_at, call_file_at};
ghost use Rattle.dwarf_entries.specs.Scopes.{call_line_at, stmt_list_by_number, tree_in, tree_of};

use crate::calls::CallSite;
use crate::scope::{Root, Scope};
use crate::scope_lists::ScopeLists;
use crate::units::Units;
use dwarf_bytes::LoadFault;
use dwarf_ranges::Range;
use dwarf_walk::Sections;
use std::alloc::{AllocError, Global};
use std::marker::Model;

/// The roots of the units of an object and its scopes, in file order.
#[derive(Debug, Drop)]
pub struct Scopes {
    roots: Vec<Root>,
    lists: ScopeLists,
}

impl Model for Scopes {
    ghost use Rattle.std.specs.List.Sorted.{IsNonDecreasingBy};
    ghost use Rattle.dwarf_entries.specs.Scopes.{Tree, scopes_of};

    ghost Value = { Tree };

    ghost invariant = { λ s. IsNonDecreasingBy (λ root. root.past) s.roots.items };

    ghost view = { λ s.
        record { roots = s.roots.items; scopes = scopes_of s.roots.items s.lists } };
}

impl Scopes {
    /// Parses all units: their headers, abbreviation tables, entries, roots and scopes. Each pass
    /// covers all units before the next one starts. A fault is reported at its unit, declaration
    /// or entry, as an offset relative to the start of its section.
    #[tactic(auto, unfolding(crate::specs::Scopes::tree_of))]
    pub fn read(alloc: Global, sections: &Sections<'_>) -> Result<Scopes, LoadFault>
        ensures { Decodes (λ scopes. scopes) result (tree_of (sections_of sections.now)) }
    {
        bound_places(alloc, sections)?;
        let mut units = Units::read(alloc, sections)?;
        Scopes::of_units(alloc, &mut units)
    }

    /// Parses the scopes of these units.
    fn of_units(alloc: Global, units: &mut Units<'_>) -> Result<Scopes, LoadFault>
        ensures { Decodes (λ scopes. scopes) result (tree_in units.old.sections units.old.units) }
    {
        let lists = units.scopes(alloc)?;
        let roots = units.roots(alloc)?;
        Ok(Scopes { roots, lists })
    }

    /// Returns the roots of all units that are read and have entries.
    pub fn roots(&self) -> &[Root]
        ensures { result.now ≡ self.now.roots }
    {
        self.roots.as_slice()
    }

    /// Returns the subprograms and inlined subroutines of all units that are read.
    #[tactic(auto, using(crate::proofs::ScopePasses::DataLaws::own_stored))]
    pub fn scopes(&self) -> &[Scope]
        ensures { map own_of result.now ≡ map own self.now.scopes }
    {
        self.lists.scopes.as_slice()
    }

    /// Returns the ranges of the scope at an index.
    pub(crate) fn ranges_of(&self, number: usize) -> &[Range]
        ensures { result.now ≡ ranges_at self.now.scopes number }
    {
        self.lists.ranges_of(number)
    }

    /// Returns the offset of the line program of the scope at an index.
    pub(crate) fn stmt_list_of(&self, number: usize) -> Option<u64>
        ensures { result ≡ stmt_list_at self.now.scopes number }
    {
        let scope = self.lists.get(number)?;
        stmt_list_by_number(&self.roots, scope.number())
    }

    /// Returns the call site of the scope at an index.
    pub(crate) fn call_of(&self, number: usize) -> CallSite
        ensures file { result.file ≡ call_file_at self.now.scopes number }
        ensures line { result.line ≡ call_line_at self.now.scopes number }
    {
        let wide = self.lists.wide.as_slice();
        match self.lists.get(number) {
            Some(scope) => CallSite::unpack(scope.calls, scope.call_file, scope.call_line, wide),
            None => CallSite {
                file: None,
                line: None,
            },
        }
    }
}

/// Returns the stmt_list of the unit that contains the scope with a number.
fn stmt_list_by_number(roots: &[Root], number: usize) -> Option<u64>
    ensures { IsNonDecreasingBy (λ root. root.past) roots.now
        → result ≡ stmt_list_by_number roots.now number }
{
    roots.get(root_by_number(roots, number))?.stmt_list
}

/// Returns the index of the first root whose scopes end after a number, by binary search.
fn root_by_number(roots: &[Root], number: usize) -> usize
    ensures { IsNonDecreasingBy (λ root. root.past) roots.now
        → find (λ root. nat_lt number root.past) roots.now ≡ slice_get roots.now result }
{
    roots.partition_point(|root| root.past <= number)
}

/// Fails with an allocation failure if a section has 2^32 bytes or more, because scopes are stored
/// with 32-bit offsets. The failure is caused by an allocation that is too large for any machine.
fn bound_places(alloc: Global, sections: &Sections<'_>) -> Result<(), AllocError> {
    let strings = [
        sections.debug_info,
        sections.debug_str,
        sections.debug_line_str,
    ];
    if strings
        .iter()
        .all(|bytes| u32::try_from(bytes.len()).is_ok())
    {
        return Ok(());
    }
    let _: Vec<u8> = Vec::with_capacity(alloc, usize::MAX)?;
    Ok(())
}

//! The roots and scopes of an object.

ghost use Rattle.std.specs.Prelude.{◌≡◌, ◌++◌, [], OnOk};
ghost use Rattle.dwarf_bytes.specs.Refusals.{Builds, Decodes};
ghost use Rattle.dwarf_walk.specs.Sections.{sections_of};
ghost use Rattle.dwarf_entries.specs.Scopes.{root_of, roots_from, tree_of};

use crate::entries::Die;
use crate::scopes::{PlainScope, all_scopes, sum};
use crate::sites::scope_count;
use crate::units::{CompilationUnit, all_bases, all_entries, tables};
use dwarf_bytes::LoadFault;
use dwarf_bytes::constants::DW_AT_STMT_LIST;
use dwarf_entries::{Root, Sections};
use dwarf_units::units;
use std::alloc::{AllocError, Global};
use std::marker::Model;

/// The roots of the units of an object and its scopes, in file order.
#[derive(Drop)]
pub struct PlainScopes {
    pub roots: Vec<Root>,
    pub scopes: Vec<PlainScope>,
}

impl Model for PlainScopes {
    ghost use Rattle.dwarf_entries.specs.Scopes.{Tree};

    ghost Value = { Tree };

    ghost view = { λ s. record { roots = s.roots.items; scopes = s.scopes.items } };
}

/// Appends the root of a unit, if the unit has one.
fn add_root(
    first: usize,
    past: usize,
    dies: &[Die],
    roots: &mut Vec<Root>,
) -> Result<(), AllocError>
    ensures { OnOk result (roots.new.items
        ≡ roots.old.items ++ root_of first past dies.now []) }
{
    if let Some(root) = dies.first() {
        roots.push(Root {
            offset: root.offset(),
            stmt_list: root.number(DW_AT_STMT_LIST),
            first,
            past,
        })?;
    }
    Ok(())
}

/// Returns the roots of the units, each with the numbers of its scopes.
fn roots_of(alloc: Global, units: &[CompilationUnit<'_>]) -> Result<Vec<Root>, LoadFault>
    ensures { Builds (λ roots. roots.items) result (roots_from 0 units.now) }
{
    let mut roots = Vec::new(alloc);
    let mut first = 0;
    for unit in units {
        let past = sum(first, scope_count(unit.dies()))?;
        add_root(first, past, unit.dies(), &mut roots)?;
        first = past;
    }
    Ok(roots)
}

impl PlainScopes {
    /// Parses all units, as `Scopes::read` does.
    #[tactic(auto, unfolding(crate::specs::Scopes::tree_of, crate::specs::Scopes::units_read))]
    pub fn read(alloc: Global, sections: &Sections<'_>) -> Result<PlainScopes, LoadFault>
        ensures { Decodes (λ scopes. scopes) result (tree_of (sections_of sections.now)) }
    {
        let headers = units(alloc, sections.debug_info)?;
        let tables = tables(alloc, sections.debug_abbrev, &headers)?;
        let parsed = all_entries(alloc, sections.debug_info, &headers, &tables)?;
        let units = all_bases(alloc, sections, &parsed)?;
        let scopes = all_scopes(alloc, sections, &units)?;
        let roots = roots_of(alloc, &units)?;
        Ok(PlainScopes { roots, scopes })
    }
}

//! The starts of the address ranges of scopes.

ghost use Rattle.std.specs.Prelude.{◌≡◌, ◌∷◌, [], ◌+◌, ◌^◌, ◌<◌, length, map, IfOk, OnOk};
ghost use Rattle.dwarf_entries.specs.Scopes.{Scope as ScopeSeen, own_of};
ghost use Rattle.dwarf_entries.specs.Order.{AreInOrder, HasDataOf};
ghost use Rattle.addr_table.specs.Private.{Parents.AreParents, Walks.parent_codes};
ghost use Rattle.addr_table.specs.Private.Sweep.{AddsStarts, reaches_in, scope_reaches};

use crate::optional_index::OptionalIndex;
use crate::parents::add_parent;
use crate::scopes::{count, scope_at};
use crate::start_list::StartList;
use dwarf_entries::{Range, Scope, ScopeKind, Scopes};
use std::alloc::{AllocError, Global};

/// The start of a range, its end (exclusive), and the key of the row or scope that has the range.
#[derive(Clone, Copy)]
pub(crate) struct Start {
    pub(crate) at: u64,
    pub(crate) to: u64,
    pub(crate) key: usize,
}

impl StartList {
    /// Adds the start of a range unless the range is empty.
    fn add(&mut self, key: usize, range: Range) -> Result<(), AllocError>
        requires { key < 2 ^ 32 }
        ensures { OnOk result
            (AddsStarts (record { key = key; range = range } ∷ []) self.old self.new) }
    {
        if range.from < range.to {
            self.push(Start {
                at: range.from,
                to: range.to,
                key,
            })?;
        }
        Ok(())
    }

    /// Adds the starts of the ranges of one of `total` scopes. Its key follows the keys of `rows`
    /// rows.
    fn add_scope(
        &mut self,
        rows: usize,
        total: usize,
        scopes: &Scopes,
        scope: &Scope,
    ) -> Result<(), AllocError>
        requires few { rows + total + (own_of scope.now).number < 2 ^ 32 }
        ensures { OnOk result ((s : ScopeSeen) → HasDataOf scopes.now.scopes scope.now s →
            AddsStarts (reaches_in rows total s) self.old self.new) }
    {
        let number = scope.number();
        let key = match scope.kind() {
            ScopeKind::Subprogram => rows + number,
            ScopeKind::Inlined => rows + total + number,
        };
        self.add_ranges(key, scope.ranges(scopes))
    }

    /// Adds the starts of ranges that share a key.
    fn add_ranges(&mut self, key: usize, ranges: &[Range]) -> Result<(), AllocError>
        requires { key < 2 ^ 32 }
        ensures { OnOk result (AddsStarts (map (λ r. record { key = key; range = r }) ranges.now)
            self.old self.new) }
    {
        for range in ranges {
            self.add(key, *range)?;
        }
        Ok(())
    }
}

/// Returns the starts of the ranges of all scopes, and the nearest enclosing scope of each scope.
/// The keys of scopes follow the keys of `rows` rows. One pass finds both, because the scopes of a
/// large object do not fit into the caches of a processor.
pub(crate) fn starts_and_parents(
    alloc: Global,
    rows: usize,
    scopes: &Scopes,
) -> Result<(StartList, Vec<OptionalIndex>), AllocError>
    requires order { AreInOrder scopes.now.scopes }
    requires few { rows + length scopes.now.scopes + length scopes.now.scopes < 2 ^ 32 }
    ensures starts { IfOk result (λ r. AddsStarts
        (scope_reaches rows (length scopes.now.scopes) scopes.now.scopes) [] r.0) }
    ensures parents { IfOk result
        (λ r. AreParents scopes.now.scopes (parent_codes r.1.items)) }
    ensures all { IfOk result (λ r. length r.1.items ≡ length scopes.now.scopes) }
{
    let total = count(scopes);
    let mut starts = StartList::new(alloc, total)?;
    let mut parents = Vec::with_capacity(alloc, total)?;
    for number in 0..total {
        starts.add_scope(rows, total, scopes, scope_at(scopes, number))?;
        add_parent(scopes, &mut parents)?;
    }
    Ok((starts, parents))
}

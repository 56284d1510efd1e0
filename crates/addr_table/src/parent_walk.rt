//! Walks the scopes of a chain from the innermost to the outermost.

ghost use Rattle.std.specs.Prelude.{◌≡◌, ◌≤◌, ◌<◌, length, get_or};
ghost use Rattle.dwarf_entries.specs.Scopes.{Scope as ScopeSeen};
ghost use Rattle.addr_table.specs.Chains.{is_at};
ghost use Rattle.dwarf_entries.specs.Order.{AreInOrder};
ghost use Rattle.addr_table.specs.Private.Walks.{HaveParents, parent_code, parent_codes, chain_at};
ghost use Rattle.addr_table.specs.Private.Walks.{top_at, EndsAt, IsInChain, outer_of};
ghost use Rattle.addr_table.specs.Private.Walks.{search_start_of};

use crate::object_tables::ObjectTables;
use crate::optional_index::OptionalIndex;
use crate::parents::parent;
use crate::scan::is_at;
use crate::scopes::scope_at;
use crate::steps::Steps;
use dwarf_entries::{ScopeKind, Scopes};

/// Returns whether a scope is of a kind and contains a link address.
fn is_scope_at(kind: ScopeKind, scopes: &Scopes, number: usize, link: u64) -> bool
    requires order { AreInOrder scopes.now.scopes }
    requires within { number < length scopes.now.scopes }
    ensures { (d : ScopeSeen) → result ≡ is_at kind link (get_or scopes.now.scopes number d) }
{
    let scope = scope_at(scopes, number);
    is_at(kind, scopes, scope, link, &mut Steps::default())
}

/// Returns the outermost scope of the chain among a scope and the scopes that enclose it.
pub(crate) fn top(
    scopes: &Scopes,
    parents: &[OptionalIndex],
    link: u64,
    scope: Option<usize>,
) -> Option<usize>
    requires have { HaveParents scopes.now.scopes (parent_codes parents.now) }
    requires within { parent_code scope ≤ length scopes.now.scopes }
    ensures { result ≡ top_at link scopes.now.scopes (parent_code scope) }
{
    let mut found = None;
    let mut scope = scope;
    while let Some(number) = scope {
        if is_scope_at(ScopeKind::Subprogram, scopes, number, link) {
            found = Some(number);
        }
        scope = parent(parents, number);
    }
    found
}

/// Reads bytes of the names of a scope and of the scopes that enclose it, so that the processor
/// fetches all of them at once. Returns whether one of these bytes is NUL. If none is, no name is
/// empty.
pub(crate) fn touch_names(
    tables: ObjectTables<'_>,
    parents: &[OptionalIndex],
    scope: Option<usize>,
) -> bool
    requires have { HaveParents tables.scopes.now.scopes (parent_codes parents.now) }
    requires within { parent_code scope ≤ length tables.scopes.now.scopes }
{
    let mut is_found = false;
    let mut scope = scope;
    while let Some(number) = scope {
        // No branch depends on the name, so that no name waits for another.
        is_found |= tables.touch_name(number);
        scope = parent(parents, number);
    }
    is_found
}

/// Returns the innermost scope of the chain among a scope and the scopes that enclose it, if there
/// is one.
pub(crate) fn next_in_chain(
    scopes: &Scopes,
    parents: &[OptionalIndex],
    link: u64,
    top: usize,
    scope: Option<usize>,
) -> Option<usize>
    requires have { HaveParents scopes.now.scopes (parent_codes parents.now) }
    requires within { parent_code scope ≤ length scopes.now.scopes }
    requires ends { EndsAt link scopes.now.scopes (parent_code scope) top }
    ensures within { parent_code result ≤ length scopes.now.scopes }
    ensures chain { chain_at link scopes.now.scopes (parent_code result)
        ≡ chain_at link scopes.now.scopes (parent_code scope) }
    ensures ends { EndsAt link scopes.now.scopes (parent_code result) top }
    ensures returned { IsInChain link scopes.now.scopes (parent_code result) top }
{
    let mut scope = scope;
    while let Some(number) = scope {
        if number == top || is_scope_at(ScopeKind::Inlined, scopes, number, link) {
            return scope;
        }
        scope = parent(parents, number);
    }
    None
}

/// Returns the parent of scope `number`, or `None` if it is the outermost scope of the chain.
pub(crate) fn outer(parents: &[OptionalIndex], top: usize, number: usize) -> Option<usize>
    requires { number < length (parent_codes parents.now) }
    ensures { parent_code result ≡ outer_of (parent_codes parents.now) top number }
{
    if number == top {
        return None;
    }
    parent(parents, number)
}

/// Returns a scope if its number is below `count`.
pub(crate) fn search_start(count: usize, scope: Option<usize>) -> Option<usize>
    ensures { parent_code result ≡ search_start_of count scope }
{
    scope.filter(|number| *number < count)
}

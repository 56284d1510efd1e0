//! Access to the scopes of an object by index.

ghost use Rattle.std.specs.Prelude.{◌≡◌, ◌<◌, ◌^◌, length, get_or};
ghost use Rattle.dwarf_entries.specs.Scopes.{Scope as ScopeSeen};
ghost use Rattle.dwarf_entries.specs.Order.{AreInOrder, HasDataOf};

use dwarf_entries::{Scope, Scopes};

/// Returns the number of scopes.
pub(crate) fn count(scopes: &Scopes) -> usize
    ensures count { result ≡ length scopes.now.scopes }
    ensures few { result < 2 ^ 60 }
{
    scopes.scopes().len()
}

/// Returns the scope at an index.
pub(crate) fn scope_at(scopes: &Scopes, number: usize) -> &Scope
    requires order { AreInOrder scopes.now.scopes }
    requires within { number < length scopes.now.scopes }
    ensures { (d : ScopeSeen) → HasDataOf scopes.now.scopes result.now
        (get_or scopes.now.scopes number d) }
{
    &scopes.scopes()[number]
}

/// Returns the index of the first later scope that is not below the scope at `number`.
pub(crate) fn end_at(scopes: &Scopes, number: usize) -> usize
    requires { number < length scopes.now.scopes }
    ensures { (d : ScopeSeen) → result ≡ (get_or scopes.now.scopes number d).«end» }
{
    scopes.scopes()[number].end()
}

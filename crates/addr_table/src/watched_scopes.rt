//! The scopes that can change the innermost scope.

ghost use Rattle.std.specs.Prelude.{◌≡◌, ◌<◌, ◌&&◌, length, not, IfSome};
ghost use Rattle.addr_table.specs.Private.Sweep.{IsLimit, IsWatching, is_watched};

use crate::scopes::{count, end_at};
use dwarf_entries::Scopes;

/// The scopes with a number below `limit`. In the active set, the first `rows` keys belong to rows,
/// the next `total` keys to subprograms, and the next `total` keys to inlined subroutines.
#[derive(Clone, Copy)]
pub(crate) struct WatchedScopes {
    rows: usize,
    total: usize,
    limit: usize,
}

impl WatchedScopes {
    /// Returns the scopes that can change the innermost scope. Each level of the search finds the
    /// first active scope, and the last level looks only at descendants of the innermost scope. So
    /// scopes after these descendants cannot change it.
    pub(crate) fn new(rows: usize, scopes: &Scopes, innermost: Option<usize>) -> WatchedScopes
        requires { IfSome innermost (λ n. n < length scopes.now.scopes) }
        ensures { IsWatching rows scopes.now.scopes innermost result }
    {
        WatchedScopes {
            rows,
            total: count(scopes),
            limit: limit(scopes, innermost),
        }
    }

    /// Returns whether a key belongs to one of these scopes.
    pub(crate) fn has_key(self, key: usize) -> bool
        ensures { result ≡ is_watched self key }
    {
        if key < self.rows {
            return false;
        }
        let number = key - self.rows;
        number < self.limit || (number >= self.total && number - self.total < self.limit)
    }

    /// Returns whether the innermost scope is still known after the ranges of a key change. It is
    /// `is_found` before, and the set has scopes.
    pub(crate) fn stays_found(self, has_scopes: bool, is_found: bool, key: usize) -> bool
        ensures { result ≡ (has_scopes && is_found && not (is_watched self key)) }
    {
        has_scopes && is_found && !self.has_key(key)
    }
}

/// Returns the end of the innermost scope, or the number of scopes if there is no innermost scope.
fn limit(scopes: &Scopes, innermost: Option<usize>) -> usize
    requires { IfSome innermost (λ n. n < length scopes.now.scopes) }
    ensures { IsLimit scopes.now.scopes innermost result }
{
    match innermost {
        Some(number) => end_at(scopes, number),
        None => count(scopes),
    }
}

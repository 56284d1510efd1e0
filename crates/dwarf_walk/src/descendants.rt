//! The number of scopes below each scope of a unit.

ghost use Rattle.std.specs.{Prelude.{◌≡◌, IfOk}, List.prefix_len};
ghost use Rattle.dwarf_walk.specs.Private.WalkedScopes.{AreBounded, counted_places, is_deeper};

use crate::packed::narrow;
use crate::unit_entries::ScopePlace;
use std::alloc::{AllocError, Global};

/// A scope as the walk stores it: the offset of its entry in `.debug_info`, the depth of the entry,
/// and the least depth of the entries after the previous scope, up to this entry.
#[derive(Clone, Copy)]
pub(crate) struct WalkedScope {
    pub(crate) offset: u32,
    pub(crate) depth: u16,
    pub(crate) least: u16,
}

/// Counts the scopes below each scope of a unit, from the last scope to the first.
pub(crate) fn count_descendants(
    alloc: Global,
    walked: &[WalkedScope],
) -> Result<Vec<ScopePlace>, AllocError>
    requires { AreBounded walked.now }
    ensures { IfOk result (λ places. places.items ≡ counted_places walked.now) }
{
    let mut places = vec![in alloc; ScopePlace {
        offset: 0,
        inside: 0
    }; walked.len()]?;
    for index in (0..walked.len()).rev() {
        let scope = walked[index];
        let inside = count_deeper(scope.depth, &walked[index + 1..], &places[index + 1..]);
        places[index] = ScopePlace {
            offset: scope.offset,
            inside: narrow(inside)?,
        };
    }
    Ok(places)
}

/// Counts the scopes of a list up to the first that is not deeper than `depth`. `places` has the
/// number of scopes below each: if a scope is deeper, so are the scopes below it.
#[tactic(auto, using(crate::proofs::ScopeLaws::jumps))]
fn count_deeper(depth: u16, walked: &[WalkedScope], places: &[ScopePlace]) -> usize
    requires bounded { AreBounded walked.now }
    requires places { places.now ≡ counted_places walked.now }
    ensures { result ≡ prefix_len (is_deeper depth) walked.now }
{
    let mut next = 0;
    while next < walked.len() && walked[next].least > depth {
        next += 1 + places[next].inside as usize;
    }
    next
}

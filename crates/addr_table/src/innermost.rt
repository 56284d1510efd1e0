//! The search for the innermost scope in the active set.

ghost use Rattle.std.specs.Prelude.{◌≡◌, ℕ, ◌+◌, ◌^◌, ◌<◌, ◌≤◌, IfSome, length};
ghost use Rattle.dwarf_entries.specs.Order.{AreInOrder};
ghost use Rattle.addr_table.specs.Chains.{chain_of};
ghost use Rattle.addr_table.specs.Private.Bits.{is_filled, IsFirstIn};
ghost use Rattle.addr_table.specs.Private.Sweep.{IsActiveAt, IsInnermost};

use crate::active_ranges::ActiveRanges;
use crate::scopes::{count, end_at};
use dwarf_entries::Scopes;

/// Returns the first active key in `from..to`. Most of these searches are below a scope without
/// descendants, and such a search needs no call on the active set.
fn first_below(active: &mut ActiveRanges, from: usize, to: usize) -> Option<usize>
    ensures first { IsFirstIn (is_filled active.old.counts) from to result }
    ensures counts { active.new.counts ≡ active.old.counts }
    ensures calls { active.new.calls ≤ active.old.calls + 1 }
    ensures more { (n : ℕ) → n < 2 ^ 64 → n ≤ active.old.calls → n ≤ active.new.calls }
{
    if to <= from {
        return None;
    }
    active.first(from, to)
}

/// Returns the innermost scope at the address of the active set. The first `rows` keys of the set
/// belong to rows.
pub(crate) fn innermost(active: &mut ActiveRanges, rows: usize, scopes: &Scopes) -> Option<usize>
    requires few { rows + length scopes.now.scopes + length scopes.now.scopes < 2 ^ 64 }
    requires order { AreInOrder scopes.now.scopes }
    ensures scope { IsInnermost rows scopes.now.scopes active.old.counts result }
    ensures within { IfSome result (λ n. n < length scopes.now.scopes) }
    ensures counts { active.new.counts ≡ active.old.counts }
    ensures calls { (e : ℕ) → IsActiveAt rows scopes.now.scopes e active.old.counts →
        active.new.calls ≤ active.old.calls + length (chain_of e scopes.now.scopes) + 1 }
    ensures more { (n : ℕ) → n < 2 ^ 64 → n ≤ active.old.calls → n ≤ active.new.calls }
{
    let inlined = rows + count(scopes);
    let mut last = match active.first(rows, inlined) {
        Some(key) => key - rows,
        None => return None,
    };
    loop {
        match first_below(active, inlined + last + 1, inlined + end_at(scopes, last)) {
            Some(key) => last = key - inlined,
            None => return Some(last),
        }
    }
}

//! Chains of nested scopes.

ghost use Rattle.std.specs.Prelude.{◌≡◌, [], ◌∷◌, ◌++◌, ◌+◌, ◌-◌, ◌^◌, ◌<◌, ◌≤◌, ◌≢◌, length, true};
ghost use Rattle.std.specs.Prelude.{false, IfNone, IfSome, slice_get};
ghost use Rattle.dwarf_entries.specs.Order.{AreInOrder};
ghost use Rattle.addr_table.specs.declared.scope_chain.ChainScope.{ChainScope as ChainSeen};
ghost use Rattle.addr_table.specs.Private.ActiveChain.{AreFree, IsInnerIn, counts_with_keys};
ghost use Rattle.addr_table.specs.Private.ActiveChain.{keys_of, last_number};

use crate::active_ranges::ActiveRanges;
use crate::packed::narrow;
use crate::scopes::{count, end_at};
use dwarf_entries::Scopes;

/// A scope of a chain: its number, the number of the first later scope that is not below it, and
/// the key of its active range.
#[derive(Clone, Copy)]
pub(crate) struct ChainScope {
    pub(crate) number: u32,
    pub(crate) end: u32,
    pub(crate) key: u32,
}

/// Returns the scope of a key if it continues a chain: it is inlined in the last scope, or it is a
/// subprogram and the chain is empty.
pub(crate) fn inner(
    rows: usize,
    scopes: &Scopes,
    chain: &[ChainScope],
    key: usize,
) -> Option<ChainScope>
    requires few { rows + length scopes.now.scopes + length scopes.now.scopes < 2 ^ 32 }
    requires key { (rows ≤ key) × (key < rows + length scopes.now.scopes + length
        scopes.now.scopes) }
    requires order { AreInOrder scopes.now.scopes }
    ensures some { IfSome result (λ scope. (scope.key ≡ key)
        × IsInnerIn rows scopes.now.scopes chain.now scope) }
    ensures none { IfNone result ((scope : ChainSeen) → scope.key ≡ key
        → IsInnerIn rows scopes.now.scopes chain.now scope → ⊥) }
{
    let inlined = rows + count(scopes);
    let number = match chain.last() {
        None if key < inlined => key - rows,
        Some(outer) if is_inside(*outer, inlined, key) => key - inlined,
        _ => return None,
    };
    Some(ChainScope {
        number: narrow(number),
        end: narrow(end_at(scopes, number)),
        key: narrow(key),
    })
}

/// Returns whether a key belongs to a scope inlined in `outer`. The keys of inlined subroutines
/// start at `inlined`.
fn is_inside(outer: ChainScope, inlined: usize, key: usize) -> bool
    ensures inside { result ≡ true
        → (inlined + outer.number < key) × (key < inlined + outer.«end») }
    ensures outside { result ≡ false → inlined + outer.number < key
        → key < inlined + outer.«end» → ⊥ }
{
    key >= inlined && key - inlined > outer.number as usize && key - inlined < outer.end as usize
}

/// Returns the number of the last scope of a chain.
pub(crate) fn last_number(chain: &[ChainScope]) -> Option<usize>
    ensures { result ≡ last_number chain.now }
{
    Some(chain.last()?.number as usize)
}

/// Removes the last scope of a chain if its key is this one. Returns whether it was removed.
pub(crate) fn pop_key(chain: &mut Vec<ChainScope>, key: usize) -> bool
    ensures popped { result ≡ true → (scope : ChainSeen) × (scope.key ≡ key)
        × (chain.old.items ≡ chain.new.items ++ scope ∷ []) }
    ensures kept { result ≡ false → (chain.new.items ≡ chain.old.items)
        × IfSome (slice_get chain.old.items (length chain.old.items - 1)) (λ last. last.key ≢ key) }
{
    match chain.last() {
        Some(last) if last.key as usize == key => {
            chain.pop();
            true
        }
        _ => false,
    }
}

/// Moves the scopes of a chain into the set.
// Not inlined: most ranges are nested.
#[cold]
#[inline(never)]
pub(crate) fn put_chain(ranges: &mut ActiveRanges, chain: &mut Vec<ChainScope>)
    requires keys { AreFree (keys_of chain.old.items) ranges.old.counts }
    ensures counts { ranges.new.counts
        ≡ counts_with_keys (keys_of chain.old.items) ranges.old.counts }
    ensures calls { ranges.new.calls ≡ ranges.old.calls }
    ensures chain { chain.new.items ≡ [] }
{
    for index in 0..chain.len() {
        ranges.put(chain[index].key as usize);
    }
    chain.clear();
}

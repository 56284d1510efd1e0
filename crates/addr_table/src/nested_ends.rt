//! Ends of ranges, most of which are nested.

ghost use Rattle.std.specs.Prelude.{◌≡◌, ◌∷◌, [], ℕ, ◌+◌, ◌-◌, ◌^◌, ◌<◌, ◌≤◌, ◌++◌, length, true};
ghost use Rattle.std.specs.Prelude.{slice_index_or, OnOk, MatchOption};
ghost use Rattle.std.specs.List.{All};
ghost use Rattle.std.specs.List.Sorted.{IsPermutation};
ghost use Rattle.addr_table.specs.declared.open_ends.End.{End as Ended};
ghost use Rattle.addr_table.specs.Private.OpenEnds.{IsLowest, IsStack};

use crate::end_heap::EndHeap;
use crate::open_ends::End;
use std::alloc::{AllocError, Global};
use std::marker::Model;

/// Ends of ranges. The last end of the stack is its lowest one. A range inside all ranges of the
/// stack is added to it, and so are most ranges of scopes. The heap has the ends of other ranges.
#[derive(Drop)]
pub(crate) struct NestedEnds {
    stack: Vec<End>,
    heap: EndHeap,
}

impl Model for NestedEnds {
    ghost use Rattle.std.specs.Prelude.{List, ◌++◌};
    ghost use Rattle.addr_table.specs.declared.open_ends.End.{End};
    ghost use Rattle.addr_table.specs.Private.OpenEnds.{IsStack};

    ghost Value = { List End };

    ghost view = { λ o. o.stack.items ++ o.heap };

    ghost invariant = { λ o. IsStack o.stack.items };
}

/// Returns the lowest address of an end of a stack.
fn lowest(stack: &[End]) -> Option<u64>
    requires { IsStack stack.now }
    ensures { MatchOption result (stack.now ≡ []) (λ at. (0 < length stack.now)
        × All (λ (e : Ended). at ≤ e.at) stack.now
        × ((d : Ended) → (slice_index_or stack.now (length stack.now - 1) d).at ≡ at)) }
{
    match stack.last() {
        Some(end) => Some(end.at),
        None => None,
    }
}

/// Returns whether a range that ends at an address is inside all ranges of a stack.
fn is_inside(stack: &[End], at: u64) -> bool
    requires { IsStack stack.now }
    ensures { result ≡ true → All (λ (e : Ended). at ≤ e.at) stack.now }
{
    match lowest(stack) {
        Some(lowest) => at <= lowest,
        None => true,
    }
}

/// Removes the last end of a stack if it is at or before `end`, and returns its key.
fn pop_up_to(stack: &mut Vec<End>, end: u64) -> Option<usize>
    requires { IsStack stack.old.items }
    ensures { MatchOption result
        ((stack.new.items ≡ stack.old.items) × All (λ (e : Ended). end < e.at) stack.old.items)
        (λ key. (at : ℕ) × (at ≤ end)
        × (stack.old.items ≡ stack.new.items ++ record { at = at; key = key } ∷ [])) }
{
    let at = lowest(stack)?;
    if at > end {
        return None;
    }
    let popped = stack.pop()?;
    Some(popped.key)
}

impl NestedEnds {
    pub(crate) fn new(alloc: Global) -> NestedEnds
        ensures { result ≡ [] }
    {
        NestedEnds {
            stack: Vec::new(alloc),
            heap: EndHeap::new(alloc),
        }
    }

    /// Adds an end.
    // Inlined: called for most starts of scopes.
    #[inline(always)]
    pub(crate) fn push(&mut self, end: End) -> Result<(), AllocError>
        requires { end.key < 2 ^ 32 }
        ensures { OnOk result (IsPermutation (end ∷ self.old) self.new) }
    {
        if is_inside(&self.stack, end.at) {
            self.stack.push(end)?;
            return Ok(());
        }
        self.heap.push(end)?;
        Ok(())
    }

    /// Returns the lowest address of an end.
    pub(crate) fn lowest(&self) -> Option<u64>
        ensures { MatchOption result (self.now ≡ []) (IsLowest self.now) }
    {
        match (lowest(&self.stack), self.heap.lowest()) {
            (Some(nested), Some(at)) => Some(nested.min(at)),
            (Some(nested), None) => Some(nested),
            (None, at) => at,
        }
    }

    /// Takes an end at or before `end`, if there is one, and returns its key.
    pub(crate) fn take_up_to(&mut self, end: u64) -> Option<usize>
        ensures { MatchOption result
            ((self.new ≡ self.old) × All (λ (e : Ended). end < e.at) self.old)
            (λ key. (at : ℕ) × (at ≤ end)
            × IsPermutation self.old (record { at = at; key = key } ∷ self.new)) }
    {
        match pop_up_to(&mut self.stack, end) {
            Some(key) => Some(key),
            None if self.heap.is_empty() => None,
            None => self.heap.take_up_to(end),
        }
    }
}

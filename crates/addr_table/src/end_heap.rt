//! A priority queue of ends of ranges.

ghost use Rattle.std.specs.Prelude.{◌≡◌, ◌∷◌, [], ℕ, ◌^◌, ◌<◌, ◌≤◌, OnOk, MatchOption};
ghost use Rattle.std.specs.Bool.{Decides};
ghost use Rattle.std.specs.List.{All};
ghost use Rattle.std.specs.List.Sorted.{IsPermutation};
ghost use Rattle.addr_table.specs.declared.open_ends.End.{End as Ended};
ghost use Rattle.addr_table.specs.Private.OpenEnds.{IsLowest};

use crate::open_ends::End;
use crate::packed::narrow;
use std::alloc::{AllocError, Global};
use std::cmp::Reverse;
use std::collections::BinaryHeap;
use std::marker::Model;

/// A priority queue of ends: the lowest one is removed first.
#[derive(Drop)]
pub(crate) struct EndHeap {
    heap: BinaryHeap<Reverse<(u64, u32)>>,
}

impl Model for EndHeap {
    ghost use Rattle.std.specs.Prelude.{List, map};
    ghost use Rattle.std.specs.BinaryHeap.{heap_items};
    ghost use Rattle.addr_table.specs.declared.open_ends.End.{End};
    ghost use Rattle.addr_table.specs.Private.OpenEnds.{end_in, IsEndHeap};

    ghost Value = { List End };

    ghost view = { λ o. map end_in (heap_items o.heap) };

    ghost invariant = { λ o. IsEndHeap (heap_items o.heap) };
}

impl EndHeap {
    pub(crate) fn new(alloc: Global) -> EndHeap
        ensures { result ≡ [] }
    {
        EndHeap {
            heap: BinaryHeap::new(alloc),
        }
    }

    /// Returns whether there are no ends.
    pub(crate) fn is_empty(&self) -> bool
        ensures { Decides result (self.now ≡ []) }
    {
        self.heap.is_empty()
    }

    /// Adds an end.
    // Not inlined: few ends are in the heap, and the loops that call it need the registers.
    #[cold]
    #[inline(never)]
    pub(crate) fn push(&mut self, end: End) -> Result<(), AllocError>
        requires { end.key < 2 ^ 32 }
        ensures { OnOk result (IsPermutation (end ∷ self.old) self.new) }
    {
        self.heap.push(Reverse((end.at, narrow(end.key))))?;
        Ok(())
    }

    /// Returns the lowest address of an end.
    pub(crate) fn lowest(&self) -> Option<u64>
        ensures { MatchOption result (self.now ≡ []) (IsLowest self.now) }
    {
        match self.heap.peek() {
            Some(Reverse((at, _))) => Some(*at),
            None => None,
        }
    }

    /// Takes an end at or before `end`, if there is one, and returns its key.
    // Not inlined: see `push`.
    #[cold]
    #[inline(never)]
    pub(crate) fn take_up_to(&mut self, end: u64) -> Option<usize>
        ensures { MatchOption result
            ((self.new ≡ self.old) × All (λ (e : Ended). end < e.at) self.old)
            (λ key. (at : ℕ) × (at ≤ end)
            × IsPermutation self.old (record { at = at; key = key } ∷ self.new)) }
    {
        let at = self.lowest()?;
        if at > end {
            return None;
        }
        let Reverse((_, key)) = self.heap.pop()?;
        Some(key as usize)
    }
}

//! The ranges that contain the current address of a sweep.

ghost use Rattle.std.specs.Prelude.{◌≡◌, ℕ, List, ◌+◌, ◌-◌, ◌^◌, ◌<◌, length, slice_index};
ghost use Rattle.std.specs.Prelude.{slice_set, replicate, IfOk, IfSome, OnOk, OnErr, false};
ghost use Rattle.addr_table.specs.Private.Active.{one_more};
ghost use Rattle.addr_table.specs.Private.ActiveRanges.{counts_with};
ghost use Rattle.addr_table.specs.Private.Bits.{is_filled, IsFirstIn};

use crate::active::Active;
use std::alloc::{AllocError, Global};
use std::marker::Model;

/// The active ranges. One range of a row is outside the set: most rows start where another one
/// ends, so that most rows are added, found and removed without the set.
#[derive(Drop)]
pub(crate) struct ActiveRanges {
    /// The number of keys that belong to rows. They are the first keys.
    rows: usize,
    /// The key of a range outside the set.
    row: Option<usize>,
    /// Whether the set can have a range of a row.
    has_rows: bool,
    set: Active,
    /// The number of calls that needed no call on the set.
    calls: u64,
}

impl Model for ActiveRanges {
    ghost use Rattle.addr_table.specs.Private.Active.{ActiveSet};
    ghost use Rattle.addr_table.specs.Private.ActiveRanges.{set_with, AreRowsOf};

    ghost Value = { ActiveSet };

    ghost view = { λ a. set_with a.row a.calls a.set };

    ghost invariant = { λ a. AreRowsOf a.rows a.row a.has_rows a.set.counts };
}

impl ActiveRanges {
    /// Creates an empty set for `keys` keys. The first `rows` keys belong to rows.
    pub(crate) fn new(alloc: Global, rows: usize, keys: usize) -> Result<ActiveRanges, AllocError>
        requires { keys < 2 ^ 32 }
        ensures { IfOk result (λ a. a ≡ record { counts = replicate keys 0; calls = 0 }) }
    {
        Ok(ActiveRanges {
            rows,
            row: None,
            has_rows: false,
            set: Active::new(alloc, keys)?,
            calls: 0,
        })
    }

    /// Adds a range with this key.
    // Inlined: most rows need no call on the set.
    #[inline(always)]
    pub(crate) fn insert(&mut self, key: usize) -> Result<(), AllocError>
        requires key { key < length self.old.counts }
        requires fits { slice_index self.old.counts key < 2 ^ 32 - 1 }
        ensures counts { OnOk result (self.new.counts ≡ slice_set self.old.counts key
            (slice_index self.old.counts key + 1)) }
        ensures calls { self.new.calls ≡ one_more self.old.calls }
        ensures unchanged { OnErr result (self.new.counts ≡ self.old.counts) }
    {
        if key < self.rows && self.row.is_none() {
            self.calls = self.calls.saturating_add(1);
            self.row = Some(key);
            return Ok(());
        }
        self.has_rows = self.has_rows || key < self.rows;
        self.set.insert(key)
    }

    /// Adds the first range with this key, and counts no call.
    pub(crate) fn put(&mut self, key: usize)
        requires key { key < length self.old.counts }
        requires none { is_filled self.old.counts key ≡ false }
        ensures counts { self.new.counts ≡ slice_set self.old.counts key
            (slice_index self.old.counts key + 1) }
        ensures calls { self.new.calls ≡ self.old.calls }
    {
        if key < self.rows {
            self.has_rows = true;
        }
        self.set.put(key);
    }

    /// Counts a call that needs no call on the set.
    pub(crate) fn count_call(&mut self)
        ensures counts { self.new.counts ≡ self.old.counts }
        ensures calls { self.new.calls ≡ one_more self.old.calls }
    {
        self.calls = self.calls.saturating_add(1);
    }

    /// Returns the number of calls that were made on this set.
    pub(crate) fn calls(&self) -> u64
        ensures { result ≡ self.now.calls }
    {
        self.calls.saturating_add(self.set.calls())
    }

    /// Removes a range with this key.
    pub(crate) fn remove(&mut self, key: usize)
        requires key { key < length self.old.counts }
        requires some { 0 < slice_index self.old.counts key }
        ensures counts { self.new.counts ≡ slice_set self.old.counts key
            (slice_index self.old.counts key - 1) }
        ensures calls { self.new.calls ≡ one_more self.old.calls }
    {
        match self.row {
            Some(row) if row == key => {
                self.calls = self.calls.saturating_add(1);
                self.row = None;
            }
            _ => self.set.remove(key),
        }
    }

    /// Returns the first key in `from..to` that has a range.
    // Inlined: the calls with constant keys need few instructions.
    #[inline(always)]
    pub(crate) fn first(&mut self, from: usize, to: usize) -> Option<usize>
        ensures first { IsFirstIn (is_filled self.old.counts) from to result }
        ensures counts { self.new.counts ≡ self.old.counts }
        ensures calls { self.new.calls ≡ one_more self.old.calls }
    {
        if to <= self.rows && !self.has_rows {
            self.calls = self.calls.saturating_add(1);
            return lower_of(None, self.row, from, to);
        }
        let first = self.set.first(from, to);
        if from >= self.rows {
            return first;
        }
        self.has_rows = self.has_rows && (first.is_some() || from > 0 || to < self.rows);
        lower_of(first, self.row, from, to)
    }

    /// Returns the first key in `from..to` that has a range, and counts no call.
    pub(crate) fn find(&self, from: usize, to: usize) -> Option<usize>
        ensures { IsFirstIn (is_filled self.now.counts) from to result }
    {
        lower_of(self.set.find(from, to), self.row, from, to)
    }
}

/// Returns the first key in `from..to`, given the first one in the set and the key of the range
/// outside the set.
fn lower_of(first: Option<usize>, row: Option<usize>, from: usize, to: usize) -> Option<usize>
    ensures { (counts : List ℕ) → IfSome row (λ k. k < length counts)
        → IsFirstIn (is_filled counts) from to first
        → IsFirstIn (is_filled (counts_with row counts)) from to result }
{
    match row {
        Some(row) if from <= row && row < to => match first {
            Some(first) => Some(first.min(row)),
            None => Some(row),
        },
        _ => first,
    }
}

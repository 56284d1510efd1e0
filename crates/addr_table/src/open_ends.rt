//! The ends of the ranges that contain the current address of a sweep.

ghost use Rattle.std.specs.Prelude.{◌≡◌, ◌∷◌, [], ℕ, ◌^◌, ◌<◌, ◌≤◌, OnOk, MatchOption};
ghost use Rattle.std.specs.List.{All};
ghost use Rattle.std.specs.List.Sorted.{IsPermutation};
ghost use Rattle.addr_table.specs.declared.open_ends.End.{End as Ended};
ghost use Rattle.addr_table.specs.Private.OpenEnds.{IsLowest};

use crate::nested_ends::NestedEnds;
use std::alloc::{AllocError, Global};
use std::marker::Model;

/// The end (exclusive) of a range, and the key of the row or scope that has the range.
#[derive(Clone, Copy)]
pub(crate) struct End {
    pub(crate) at: u64,
    pub(crate) key: usize,
}

/// Ends of ranges. One end of a row is outside the others: most rows start where another one ends,
/// so that most ends of rows are only stored there.
#[derive(Drop)]
pub(crate) struct OpenEnds {
    /// The number of keys that belong to rows. They are the first keys.
    rows: usize,
    row: Option<End>,
    others: NestedEnds,
}

impl Model for OpenEnds {
    ghost use Rattle.std.specs.Prelude.{List, IfSome, ◌<◌, ◌^◌};
    ghost use Rattle.addr_table.specs.declared.open_ends.End.{End};
    ghost use Rattle.addr_table.specs.Private.OpenEnds.{ends_with};

    ghost Value = { List End };

    ghost view = { λ o. ends_with o.row o.others };

    ghost invariant = { λ o. IfSome o.row (λ e. e.key < 2 ^ 32) };
}

impl OpenEnds {
    /// Creates an empty list. The first `rows` keys belong to rows.
    pub(crate) fn new(alloc: Global, rows: usize) -> OpenEnds
        ensures { result ≡ [] }
    {
        OpenEnds {
            rows,
            row: None,
            others: NestedEnds::new(alloc),
        }
    }

    /// Adds an end.
    pub(crate) fn push(&mut self, end: End) -> Result<(), AllocError>
        requires { end.key < 2 ^ 32 }
        ensures { OnOk result (IsPermutation (end ∷ self.old) self.new) }
    {
        if end.key < self.rows && self.row.is_none() {
            self.row = Some(end);
            return Ok(());
        }
        self.others.push(end)?;
        Ok(())
    }

    /// Returns the lowest address of an end.
    pub(crate) fn lowest(&self) -> Option<u64>
        ensures { MatchOption result (self.now ≡ []) (IsLowest self.now) }
    {
        match (self.row, self.others.lowest()) {
            (Some(row), Some(at)) => Some(row.at.min(at)),
            (Some(row), None) => Some(row.at),
            (None, at) => at,
        }
    }

    /// Takes an end at or before `end`, if there is one, and returns its key.
    pub(crate) fn take_up_to(&mut self, end: u64) -> Option<usize>
        ensures { MatchOption result
            ((self.new ≡ self.old) × All (λ (e : Ended). end < e.at) self.old)
            (λ key. (at : ℕ) × (at ≤ end)
            × IsPermutation self.old (record { at = at; key = key } ∷ self.new)) }
    {
        match self.row {
            Some(row) if row.at <= end => {
                self.row = None;
                Some(row.key)
            }
            _ => self.others.take_up_to(end),
        }
    }
}

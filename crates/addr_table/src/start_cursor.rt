//! A cursor over the starts of rows and of scopes.

ghost use Rattle.std.specs.Prelude.{◌≡◌, ◌+◌, ◌-◌, ◌^◌, ◌<◌, ◌≤◌, length, drop};
ghost use Rattle.std.specs.Prelude.{slice_index_or};
ghost use Rattle.std.specs.Prelude.{MatchOption, true, false, not};
ghost use Rattle.std.specs.Int.{from_bool};
ghost use Rattle.std.specs.List.Sorted.{IsNonDecreasingBy};
ghost use Rattle.addr_table.specs.declared.starts.Start.{Start as Started};
ghost use Rattle.addr_table.specs.Private.Merged.{IsNext, Takes, merged, starts_in, taken_of};
ghost use Rattle.addr_table.specs.Private.Sweep.{Above};

use crate::row_starts::RowStarts;
use crate::start_list::StartList;
use crate::starts::Start;
use std::marker::Model;

/// Two ascending lists of starts, read as one.
#[derive(Drop)]
pub(crate) struct StartCursor<'a> {
    rows: RowStarts<'a>,
    scopes: StartList,
    /// The number of starts of scopes that were taken.
    scope: usize,
    /// The next start, and whether it is one of a row.
    next: Option<(Start, bool)>,
}

impl<'a> Model for StartCursor<'a> {
    ghost use Rattle.addr_table.specs.Private.Merged.{Cursor, IsMerging, IsNext};

    ghost Value = { Cursor };

    ghost view = { λ c. record {
      rows = c.rows.all;
      scopes = c.scopes;
      row = c.rows.taken;
      scope = c.scope;
    } };

    ghost invariant = { λ c. IsMerging c.rows.all c.scopes c.rows.taken c.scope
        × IsNext (record {
          rows = c.rows.all;
          scopes = c.scopes;
          row = c.rows.taken;
          scope = c.scope;
        }) c.next };
}

/// Returns the next start of two ascending lists, and whether it is one of a row. `scope` is the
/// number of starts of scopes that were taken.
fn next_of(rows: &RowStarts<'_>, scopes: &StartList, scope: usize) -> Option<(Start, bool)>
    ensures { IsNext (record {
      rows = rows.now.all;
      scopes = scopes.now;
      row = rows.now.taken;
      scope = scope;
    }) result }
{
    let Some(of_row) = rows.peek() else {
        if scope >= scopes.len() {
            return None;
        }
        return Some((scopes.get(scope), false));
    };
    if scope < scopes.len() {
        let of_scope = scopes.get(scope);
        if of_scope.at < of_row.at {
            return Some((of_scope, false));
        }
    }
    Some((of_row, true))
}

/// Takes the next start of two lists: one of a row, or one of a scope after `scope` others. Returns
/// the number of starts of scopes that were taken.
fn take(rows: &mut RowStarts<'_>, scope: usize, is_row: bool) -> usize
    requires row { is_row ≡ true → rows.old.taken < length rows.old.all }
    requires scope { is_row ≡ false → scope + 1 < 2 ^ 64 }
    ensures all { rows.new.all ≡ rows.old.all }
    ensures row { rows.new.taken ≡ rows.old.taken + from_bool is_row }
    ensures scope { result ≡ scope + from_bool (not is_row) }
{
    if is_row {
        rows.advance();
        return scope;
    }
    scope + 1
}

impl<'a> StartCursor<'a> {
    /// Begins at the first start of two ascending lists.
    pub(crate) fn new(rows: RowStarts<'a>, scopes: StartList) -> StartCursor<'a>
        requires rows { IsNonDecreasingBy (λ (e : Started). e.at) rows.all }
        requires scopes { IsNonDecreasingBy (λ (e : Started). e.at) scopes }
        requires first { rows.taken ≡ 0 }
        ensures starts { starts_in result ≡ merged rows.entry.all scopes }
        ensures taken { taken_of result ≡ 0 }
    {
        let next = next_of(&rows, &scopes, 0);
        StartCursor {
            rows,
            scopes,
            scope: 0,
            next,
        }
    }

    /// Returns the number of starts of scopes.
    pub(crate) fn scopes(&self) -> usize
        ensures { result ≡ length self.now.scopes }
    {
        self.scopes.len()
    }

    /// Returns the address of the next start.
    pub(crate) fn next(&self) -> Option<u64>
        ensures { MatchOption result (length (starts_in self.now) ≤ taken_of self.now)
            (λ at. (taken_of self.now < length (starts_in self.now)) × ((d : Started) →
            (slice_index_or (starts_in self.now) (taken_of self.now) d).at ≡ at)) }
    {
        match self.next {
            Some((start, _)) => Some(start.at),
            None => None,
        }
    }

    /// Takes the next start if it is at or before `end`.
    pub(crate) fn take_up_to(&mut self, end: u64) -> Option<Start>
        ensures starts { starts_in self.new ≡ starts_in self.old }
        ensures taken { MatchOption result ((taken_of self.new ≡ taken_of self.old)
            × Above end (drop (taken_of self.old) (starts_in self.old)))
            (λ start. Takes end start (taken_of self.old) (taken_of self.new)
            (starts_in self.old)) }
    {
        let (next, is_row) = self.next?;
        if next.at > end {
            return None;
        }
        self.scope = take(&mut self.rows, self.scope, is_row);
        self.next = next_of(&self.rows, &self.scopes, self.scope);
        Some(next)
    }
}

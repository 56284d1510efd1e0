//! The starts of the addresses that rows cover.

ghost use Rattle.std.specs.Prelude.{◌≡◌, ◌+◌, ◌<◌, ◌≤◌, ◌^◌, length, map};
ghost use Rattle.std.specs.Prelude.{slice_index_or, IfOk, MatchOption};
ghost use Rattle.addr_table.specs.declared.starts.Start.{Start as Started};
ghost use Rattle.addr_table.specs.Private.RowOrder.{row_start};
ghost use Rattle.addr_table.specs.Private.RowRuns.{AreRowStarts, no_run, rows_in};

use crate::row_order::address_of;
use crate::row_runs::{Run, rest_of};
use crate::run_groups::ordered;
use crate::sequence_runs::file_runs;
use crate::starts::Start;
use dwarf_lines::Row;
use std::alloc::{AllocError, Global};
use std::marker::Model;

/// A cursor over the starts of rows. The addresses are looked up in the rows.
#[derive(Drop)]
pub(crate) struct RowStarts<'a> {
    rows: &'a [Row],
    /// All covering rows in ascending order of address.
    runs: Vec<Run>,
    /// The index in `runs` of the run that the next row is in.
    index: usize,
    /// The rest of that run, from the next row on.
    rest: Run,
    /// The start of the next row. It is stored, because it is looked up at each start of a scope.
    next: Start,
    /// The number of starts that were taken.
    taken: usize,
}

impl<'a> Model for RowStarts<'a> {
    ghost use Rattle.std.specs.Prelude.{map};
    ghost use Rattle.addr_table.specs.Private.RowOrder.{row_start};
    ghost use Rattle.addr_table.specs.Private.RowRuns.{IsNextRow, IsStartOf, RowCursor, rows_in};

    ghost Value = { RowCursor };

    ghost view = { λ r. record {
      all = map (row_start r.rows.now) (rows_in r.rows.now r.runs.items);
      taken = r.taken;
    } };

    ghost invariant = { λ r. IsNextRow r.rows.now r.runs.items r.index r.rest r.taken
        × IsStartOf r.rows.now r.rest r.next };
}

/// Returns the start of a row. The row ends where the next row starts.
fn start_of(rows: &[Row], row: usize) -> Start
    requires { row < 2 ^ 32 }
    ensures { result ≡ row_start rows.now row }
{
    Start {
        at: address_of(rows, row),
        to: address_of(rows, row + 1),
        key: row,
    }
}

/// Returns the run at an index; rows 0 to 0 if there is none.
fn run_at(runs: &[Run], index: usize) -> Run
    ensures { result ≡ slice_index_or runs.now index no_run }
{
    match runs.get(index) {
        Some(run) => *run,
        None => Run { first: 0, last: 0 },
    }
}

impl<'a> RowStarts<'a> {
    /// Begins at the first row of runs.
    fn new(rows: &'a [Row], runs: Vec<Run>) -> RowStarts<'a>
        requires few { length rows.now < 2 ^ 32 }
        requires fits { length (rows_in rows.now runs.items) < 2 ^ 32 }
        ensures all { result.all ≡ map (row_start rows.now) (rows_in rows.now runs.items) }
        ensures taken { result.taken ≡ 0 }
    {
        let rest = run_at(&runs, 0);
        RowStarts {
            rows,
            runs,
            index: 0,
            rest,
            next: start_of(rows, rest.first as usize),
            taken: 0,
        }
    }

    /// Returns the starts of the rows that cover addresses, in ascending order.
    pub(crate) fn of(alloc: Global, rows: &'a [Row]) -> Result<RowStarts<'a>, AllocError>
        requires { length rows.now < 2 ^ 32 }
        ensures { IfOk result (AreRowStarts rows.now) }
    {
        let mut runs = file_runs(alloc, rows)?;
        runs.sort_unstable_by_key(|run| address_of(rows, run.first as usize));
        let runs = ordered(alloc, rows, &runs)?;
        Ok(RowStarts::new(rows, runs))
    }

    /// Returns the next start without taking it.
    pub(crate) fn peek(&self) -> Option<Start>
        ensures { MatchOption result (length self.now.all ≤ self.now.taken)
            (λ s. (self.now.taken < length self.now.all)
            × ((d : Started) → s ≡ slice_index_or self.now.all self.now.taken d)
            × (s.key < 2 ^ 32)) }
    {
        if self.index >= self.runs.len() {
            return None;
        }
        Some(self.next)
    }

    /// Takes the next start.
    pub(crate) fn advance(&mut self)
        requires within { self.old.taken < length self.old.all }
        ensures all { self.new.all ≡ self.old.all }
        ensures taken { self.new.taken ≡ self.old.taken + 1 }
    {
        let later = rest_of(self.rows, self.rest);
        self.taken += 1;
        if let Some(rest) = later {
            self.next = start_of(self.rows, rest.first as usize);
            self.rest = rest;
            return;
        }
        self.index += 1;
        self.rest = run_at(&self.runs, self.index);
        self.next = start_of(self.rows, self.rest.first as usize);
    }
}

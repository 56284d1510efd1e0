//! Runs of rows that cover addresses.

ghost use Rattle.std.specs.Prelude.{◌≡◌, [], ◌<◌, ◌^◌, length, IfOk, MatchOption};
ghost use Rattle.std.specs.Bool.{Decides};
ghost use Rattle.addr_table.specs.Private.RowRuns.{Follows, later_rows, rows_in, rows_of_run};

use crate::packed::narrow;
use crate::row_order::first_covering;
use dwarf_lines::Row;
use std::alloc::{AllocError, Global};

/// The covering rows from row `first`, which is one of them, up to row `last` of the same sequence.
#[derive(Clone, Copy)]
pub(crate) struct Run {
    pub(crate) first: u32,
    pub(crate) last: u32,
}

/// Returns the rest of a run after its first row; `None` if there is none.
pub(crate) fn rest_of(rows: &[Row], run: Run) -> Option<Run>
    requires { length rows.now < 2 ^ 32 }
    ensures { MatchOption result (later_rows rows.now run ≡ [])
        (λ rest. later_rows rows.now run ≡ rows_of_run rows.now rest) }
{
    let first = first_covering(rows, run.first as usize + 1)?;
    if first > run.last as usize {
        return None;
    }
    Some(Run {
        first: narrow(first),
        last: run.last,
    })
}

/// Returns whether `row` is the next covering row after `last`, in the same sequence.
fn follows(rows: &[Row], last: u32, row: u32) -> bool
    ensures { Decides result (Follows rows.now last row) }
{
    match first_covering(rows, last as usize + 1) {
        Some(next) => next == row as usize,
        None => false,
    }
}

/// Returns the runs of an order of covering rows. Each row is either appended to the last run or
/// begins the next one. The time is linear: each search begins after another covering row, and ends
/// at the next covering row or at the end of the sequence.
pub(crate) fn runs_of(alloc: Global, rows: &[Row], order: &[u32]) -> Result<Vec<Run>, AllocError>
    ensures { IfOk result (λ runs. rows_in rows.now runs.items ≡ order.now) }
{
    let mut runs = Vec::new(alloc);
    if order.is_empty() {
        return Ok(runs);
    }
    let mut run = Run {
        first: order[0],
        last: order[0],
    };
    for index in 1..order.len() {
        let row = order[index];
        if follows(rows, run.last, row) {
            run.last = row;
        } else {
            runs.push(run)?;
            run = Run {
                first: row,
                last: row,
            };
        }
    }
    runs.push(run)?;
    runs.shrink_to_fit();
    Ok(runs)
}

//! The runs of the rows of each sequence.

ghost use Rattle.std.specs.Prelude.{◌≡◌, ◌<◌, ◌^◌, length, true, IfOk};
ghost use Rattle.std.specs.List.{All};
ghost use Rattle.addr_table.specs.Private.RowOrder.{covering_from};
ghost use Rattle.addr_table.specs.Private.RowRuns.{Ascends, IsRunFrom, RisesAfter, rows_in};

use crate::packed::narrow;
use crate::row_order::next_covering;
use crate::row_runs::Run;
use dwarf_lines::Row;
use std::alloc::{AllocError, Global};

/// Returns whether the next row is in the same sequence and its address is not lower.
fn rises_after(rows: &[Row], row: usize) -> bool
    requires { row < length rows.now }
    ensures { result ≡ true → RisesAfter rows.now row }
{
    row + 1 < rows.len() && !rows[row + 1].end && rows[row].address <= rows[row + 1].address
}

/// Returns the run that begins at a covering row and ends at the last row of its sequence, unless
/// an address is lower than the one before it. That row may cover no address, so that no branch
/// depends on which rows do.
fn run_from(rows: &[Row], first: usize) -> Run
    requires few { length rows.now < 2 ^ 32 }
    requires within { first < length rows.now }
    ensures { IsRunFrom rows.now first result }
{
    let mut last = first;
    while rises_after(rows, last) {
        last += 1;
    }
    Run {
        first: narrow(first),
        last: narrow(last),
    }
}

/// Returns the runs of all covering rows in file order: one for each sequence that covers
/// addresses, because the addresses of its rows rise.
pub(crate) fn file_runs(alloc: Global, rows: &[Row]) -> Result<Vec<Run>, AllocError>
    requires { length rows.now < 2 ^ 32 }
    ensures all { IfOk result (λ runs. rows_in rows.now runs.items ≡ covering_from 0 rows.now) }
    ensures ascend { IfOk result (λ runs. All (Ascends rows.now) runs.items) }
{
    let mut runs = Vec::new(alloc);
    let mut from = 0;
    while let Some(first) = next_covering(rows, from) {
        let run = run_from(rows, first);
        runs.push(run)?;
        from = run.last as usize + 1;
    }
    Ok(runs)
}

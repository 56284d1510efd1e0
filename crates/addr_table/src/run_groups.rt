//! The ascending order of the rows of all sequences, as runs.

ghost use Rattle.std.specs.Prelude.{◌≡◌, ℕ, ◌++◌, ◌<◌, ◌≤◌, ◌^◌, length, IfOk, OnOk};
ghost use Rattle.std.specs.List.{All};
ghost use Rattle.std.specs.List.Sorted.{IsNonDecreasingBy};
ghost use Rattle.addr_table.specs.declared.row_runs.Run.{Run as RunSeen};
ghost use Rattle.addr_table.specs.Private.RowOrder.{row_address};
ghost use Rattle.addr_table.specs.Private.RowRuns.{AppendsRows, AreMerged, Ascends, rows_of_run};
ghost use Rattle.addr_table.specs.Private.RowRuns.{run_high, run_low};

use crate::row_order::address_of;
use crate::row_runs::{Run, rest_of, runs_of};
use dwarf_lines::Row;
use std::alloc::{AllocError, Global};

/// Returns the index after the runs that overlap each other, from the run at `from` on. `runs` are
/// in ascending order of their first addresses.
fn group_end(rows: &[Row], runs: &[Run], from: usize) -> usize
    requires { from < length runs.now }
    ensures within { (from < result) × (result ≤ length runs.now) }
    ensures below { result < length runs.now → (k : ℕ) → from ≤ k → k < result →
        run_high rows.now runs.now k ≤ run_low rows.now runs.now result }
{
    let mut high = address_of(rows, runs[from].last as usize);
    let mut index = from + 1;
    while index < runs.len() && address_of(rows, runs[index].first as usize) < high {
        high = high.max(address_of(rows, runs[index].last as usize));
        index += 1;
    }
    index
}

/// Appends the rows of a run.
fn add_rows(order: &mut Vec<u32>, rows: &[Row], run: Run) -> Result<(), AllocError>
    requires { length rows.now < 2 ^ 32 }
    ensures { OnOk result (order.new.items ≡ order.old.items ++ rows_of_run rows.now run) }
{
    let mut rest = Some(run);
    while let Some(run) = rest {
        order.push(run.first)?;
        rest = rest_of(rows, run);
    }
    Ok(())
}

/// Returns the rows of a group of runs in ascending order of address, as runs. The stable sort
/// exploits that the rows of each run are in order already.
fn merged(alloc: Global, rows: &[Row], group: &[Run]) -> Result<Vec<Run>, AllocError>
    requires { length rows.now < 2 ^ 32 }
    ensures { IfOk result (λ runs. AreMerged rows.now group.now runs.items) }
{
    let mut order = Vec::new(alloc);
    for index in 0..group.len() {
        add_rows(&mut order, rows, group[index])?;
    }
    order.sort_by_key(|row| address_of(rows, *row as usize))?;
    runs_of(alloc, rows, &order)
}

/// Appends the rows of a group of runs in ascending order of address.
fn add_group(
    alloc: Global,
    ordered: &mut Vec<Run>,
    rows: &[Row],
    group: &[Run],
) -> Result<(), AllocError>
    requires few { length rows.now < 2 ^ 32 }
    requires ascend { All (Ascends rows.now) group.now }
    ensures { OnOk result (AppendsRows rows.now group.now ordered.old.items ordered.new.items) }
{
    if group.len() == 1 {
        ordered.push(group[0])?;
        return Ok(());
    }
    let mut runs = merged(alloc, rows, group)?;
    ordered.append(&mut runs)?;
    Ok(())
}

/// Returns the rows of all runs in ascending order of address, as runs. Few sequences overlap, so
/// almost all groups are one run, and its rows are not looked at.
pub(crate) fn ordered(alloc: Global, rows: &[Row], runs: &[Run]) -> Result<Vec<Run>, AllocError>
    requires few { length rows.now < 2 ^ 32 }
    requires ascend { All (Ascends rows.now) runs.now }
    requires rise { IsNonDecreasingBy (λ (run : RunSeen). row_address rows.now run.first) runs.now }
    ensures { IfOk result (λ ordered. AreMerged rows.now runs.now ordered.items) }
{
    let mut ordered = Vec::with_capacity(alloc, runs.len())?;
    let mut from = 0;
    while from < runs.len() {
        let end = group_end(rows, runs, from);
        add_group(alloc, &mut ordered, rows, &runs[from..end])?;
        from = end;
    }
    Ok(ordered)
}

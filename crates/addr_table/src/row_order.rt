//! The rows that cover addresses.

ghost use Rattle.std.specs.Prelude.{◌≡◌, ◌∷◌, [], ◌+◌, ◌<◌, length, MatchOption};
ghost use Rattle.addr_table.specs.Private.RowOrder.{covering_at, covers_at, row_address};
ghost use Rattle.addr_table.specs.Private.RowOrder.{sequence_at};

use dwarf_lines::Row;

/// Returns the address of a row; 0 if there is no such row.
pub(crate) fn address_of(rows: &[Row], row: usize) -> u64
    ensures { result ≡ row_address rows.now row }
{
    match rows.get(row) {
        Some(row) => row.address,
        None => 0,
    }
}

/// Returns whether a row covers addresses.
fn covers(rows: &[Row], row: usize) -> bool
    requires { row < length rows.now }
    ensures { result ≡ covers_at rows.now row }
{
    !rows[row].end && rows[row].address < address_of(rows, row + 1)
}

/// Returns the first row at or after row `from` that covers addresses, in the same sequence.
pub(crate) fn first_covering(rows: &[Row], from: usize) -> Option<usize>
    ensures { MatchOption result (sequence_at rows.now from ≡ [])
        (λ n. (n < length rows.now)
        × (sequence_at rows.now from ≡ n ∷ sequence_at rows.now (n + 1))) }
{
    let mut number = from;
    while number < rows.len() && !rows[number].end {
        if covers(rows, number) {
            return Some(number);
        }
        number += 1;
    }
    None
}

/// Returns the first row at or after row `from` that covers addresses, in any sequence.
pub(crate) fn next_covering(rows: &[Row], from: usize) -> Option<usize>
    ensures { MatchOption result (covering_at rows.now from ≡ [])
        (λ n. (n < length rows.now)
        × (covering_at rows.now from ≡ n ∷ covering_at rows.now (n + 1))) }
{
    let mut number = from;
    while number < rows.len() {
        if covers(rows, number) {
            return Some(number);
        }
        number += 1;
    }
    None
}

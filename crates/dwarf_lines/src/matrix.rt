//! The rows of a line program.

ghost use Rattle.std.specs.Prelude.{◌≡◌, ◌≤◌, ◌<◌, length};
ghost use Rattle.dwarf_lines.specs.Instructions.{encoding};
ghost use Rattle.dwarf_lines.specs.Matrix.{matrix_at};
ghost use Rattle.dwarf_lines.specs.Private.Registers.{Adds};

use crate::instruction::decode;
use crate::line_encoding::LineEncoding;
use crate::registers::Registers;
use crate::row::{Origin, Row};
use crate::usual_rows::run_usual;
use dwarf_bytes::{Cause, Cursor};

/// Appends the rows of the instructions from offset `start` on.
pub fn add_rows(
    header: &LineEncoding,
    origin: Origin,
    bytes: &[u8],
    start: usize,
    rows: &mut Vec<Row>,
) -> Result<(), Cause>
    requires start { start ≤ length bytes.now }
    requires range { 0 < header.now.line_range }
    ensures { Adds result rows.old.items rows.new.items
        (matrix_at (encoding header.now) origin bytes.now start) }
{
    let mut cursor = Cursor::new(bytes);
    if cursor.seek(start).is_err() {
        return Err(Cause::Short);
    }
    let mut registers = Registers::at_start();
    while cursor.place() < bytes.len() {
        run_usual(header, origin, bytes, &mut cursor, &mut registers, rows)?;
        if cursor.place() < bytes.len() {
            let instruction = decode(header, &mut cursor)?;
            if let Some(row) = registers.step(header, origin, instruction)? {
                rows.push(row)?;
            }
        }
    }
    if registers.has_row {
        return Err(Cause::SequenceOpen);
    }
    Ok(())
}

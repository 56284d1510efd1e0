//! Runs of usual instructions, which most instructions are.

ghost use Rattle.std.specs.Prelude.{◌≡◌, ◌≤◌, ◌<◌, length, IfOk};
ghost use Rattle.dwarf_lines.specs.Instructions.{encoding};
ghost use Rattle.dwarf_lines.specs.Private.Runs.{Runs};

use crate::line_encoding::LineEncoding;
use crate::registers::Registers;
use crate::row::{Origin, Row};
use crate::usual_registers::UsualRegisters;
use dwarf_bytes::Cursor;
use dwarf_bytes::constants::{DW_LNS_COPY, DW_LNS_NEGATE_STMT};
use std::alloc::AllocError;

/// Executes the instructions at the cursor up to an unusual one, and appends their rows.
// Not inlined, so that the registers of the loop are registers of the processor.
#[inline(never)]
pub fn run_usual(
    header: &LineEncoding,
    origin: Origin,
    bytes: &[u8],
    cursor: &mut Cursor,
    registers: &mut Registers,
    rows: &mut Vec<Row>,
) -> Result<(), AllocError>
    requires same { cursor.old.bytes ≡ bytes.now }
    requires range { 0 < header.now.line_range }
    ensures same { IfOk result (λ _. cursor.new.bytes ≡ bytes.now) }
    ensures moves { IfOk result (λ _. cursor.old.place ≤ cursor.new.place) }
    ensures runs { IfOk result (λ _. Runs (encoding header.now) origin bytes.now cursor.old.place
        registers.old rows.old.items cursor.new.place registers.new rows.new.items) }
{
    if !header.has_usual_operands() {
        return Ok(());
    }
    let Some(mut usual) = UsualRegisters::of(registers, origin) else {
        return Ok(());
    };
    let mut at = cursor.place();
    while at < bytes.len() {
        let opcode = bytes[at];
        if opcode >= header.opcode_base {
            if !usual.advance(header, opcode - header.opcode_base) {
                break;
            }
            rows.push(usual.row(origin))?;
            at += 1;
        } else if opcode == DW_LNS_COPY {
            rows.push(usual.row(origin))?;
            at += 1;
        } else if opcode == DW_LNS_NEGATE_STMT {
            at += 1;
        } else {
            let Some(next) = usual.step_with_operand(header, origin, bytes, at) else {
                break;
            };
            at = next;
        }
    }
    let _ = cursor.seek(at);
    *registers = usual.registers();
    Ok(())
}

//! Line program instructions.

ghost use Rattle.std.specs.Prelude.{◌≡◌, ◌≤◌, ◌<◌, ◌+◌, ◌*◌, ◌-◌, ◌^◌, ◌==◌, ℕ, length};
ghost use Rattle.std.specs.Prelude.{MatchResult, IfOk, unsigned_abs};
ghost use Rattle.dwarf_lines.specs.Instructions.{encoding, extended_of, extended_at, standard_at};
ghost use Rattle.dwarf_lines.specs.Instructions.{after_ulebs, instruction_at};
ghost use Rattle.dwarf_bytes.specs.Refusals.{ReadsField, ReadsPlace};
ghost use Rattle.dwarf_lines.specs.Private.Registers.{line_reach};

use crate::line_encoding::LineEncoding;
use dwarf_bytes::constants::{
    DW_LNE_END_SEQUENCE, DW_LNE_SET_ADDRESS, DW_LNS_ADVANCE_LINE, DW_LNS_ADVANCE_PC,
    DW_LNS_CONST_ADD_PC, DW_LNS_COPY, DW_LNS_FIXED_ADVANCE_PC, DW_LNS_SET_FILE,
};
use dwarf_bytes::{Cause, Cursor};

/// An instruction of a line program (DWARF 5, 6.2.5).
#[derive(Clone, Copy)]
pub enum Instruction {
    Copy,
    AdvancePc(u64),
    AdvanceLine(i64),
    SetFile(u64),
    ConstAddPc,
    FixedAdvancePc(u16),
    SetAddress(u64),
    EndSequence,
    /// A special opcode, minus opcode_base.
    Special(u8),
    /// An instruction that changes no address, line or file and appends no row.
    Skipped,
}

/// Decodes the instruction at the cursor.
#[tactic(auto, unfolding(crate::specs::Instructions::instruction_at))]
pub fn decode(header: &LineEncoding, cursor: &mut Cursor) -> Result<Instruction, Cause>
    ensures reads { ReadsField (λ i. i) result (instruction_at (encoding header.now)) cursor.old
        cursor.new }
    ensures moves { IfOk result (λ _. cursor.old.place < cursor.new.place) }
    ensures reach { IfOk result
        (λ i. line_reach i ≤ 2 ^ 62 * (cursor.new.place - cursor.old.place)) }
{
    let opcode = cursor.u8()?;
    if opcode >= header.opcode_base {
        return Ok(Instruction::Special(opcode - header.opcode_base));
    }
    if opcode == 0 {
        return read_extended(cursor);
    }
    standard(header, opcode, cursor)
}

#[tactic(auto, unfolding(crate::specs::Instructions::standard_at))]
fn standard(header: &LineEncoding, opcode: u8, cursor: &mut Cursor) -> Result<Instruction, Cause>
    requires { 0 < opcode }
    ensures reads { ReadsField (λ i. i) result (standard_at (encoding header.now) opcode)
        cursor.old cursor.new }
    ensures moves { IfOk result (λ _. cursor.old.place ≤ cursor.new.place) }
    ensures reach { IfOk result (λ i. line_reach i ≤ 2 ^ 62 *
        (cursor.new.place + 1 - cursor.old.place)) }
{
    match opcode {
        DW_LNS_COPY => Ok(Instruction::Copy),
        DW_LNS_ADVANCE_PC => Ok(Instruction::AdvancePc(cursor.uleb()?)),
        DW_LNS_ADVANCE_LINE => Ok(Instruction::AdvanceLine(cursor.sleb()?)),
        DW_LNS_SET_FILE => Ok(Instruction::SetFile(cursor.uleb()?)),
        DW_LNS_CONST_ADD_PC => Ok(Instruction::ConstAddPc),
        DW_LNS_FIXED_ADVANCE_PC => Ok(Instruction::FixedAdvancePc(cursor.u16()?)),
        _ => {
            skip_ulebs(header.operands(opcode), cursor)?;
            Ok(Instruction::Skipped)
        }
    }
}

/// Skips `count` unsigned LEB128 operands.
fn skip_ulebs(count: u8, cursor: &mut Cursor) -> Result<(), Cause>
    ensures reads { ReadsPlace result (after_ulebs count) cursor.old cursor.new }
    ensures moves { IfOk result (λ _. cursor.old.place ≤ cursor.new.place) }
{
    for _ in 0..count {
        let _ = cursor.uleb()?;
    }
    Ok(())
}

#[tactic(auto, unfolding(crate::specs::Instructions::extended_at))]
fn read_extended(cursor: &mut Cursor) -> Result<Instruction, Cause>
    ensures reads { ReadsField (λ i. i) result extended_at cursor.old cursor.new }
    ensures moves { IfOk result (λ _. cursor.old.place ≤ cursor.new.place) }
    ensures reach { IfOk result (λ i. line_reach i ≡ 0) }
{
    let len = cursor.uleb()?;
    if len == 0 {
        return Err(Cause::Extended);
    }
    let body = cursor.block(len)?;
    extended_in(body)
}

#[tactic(auto, unfolding(crate::specs::Instructions::extended_of))]
fn extended_in(body: &[u8]) -> Result<Instruction, Cause>
    requires { 0 < length body.now }
    ensures value { result ≡ extended_of body.now }
    ensures reach { IfOk result (λ i. line_reach i ≡ 0) }
{
    match body[0] {
        DW_LNE_END_SEQUENCE if body.len() == 1 => Ok(Instruction::EndSequence),
        DW_LNE_SET_ADDRESS if has_address(body) => {
            let address = Cursor::new(&body[1..]).u64()?;
            Ok(Instruction::SetAddress(address))
        }
        DW_LNE_END_SEQUENCE | DW_LNE_SET_ADDRESS => Err(Cause::Extended),
        _ => Ok(Instruction::Skipped),
    }
}

/// Returns whether an extended opcode is followed by exactly one 8-byte address.
fn has_address(body: &[u8]) -> bool
    ensures { result ≡ (length body.now == 9) }
{
    body.len() == 9
}

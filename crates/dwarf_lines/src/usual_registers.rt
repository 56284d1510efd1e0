//! The registers of the line number machine while its instructions are usual.

ghost use Rattle.std.specs.Prelude.{◌≡◌, ◌≤◌, ◌<◌, ◌+◌, ◌*◌, ◌^◌, ◌+ℤ◌, pos, unsigned_abs, length};
ghost use Rattle.std.specs.Prelude.{IfSome, Ok, Some, None, true, false, [], slice_index, ℕ};
ghost use Rattle.dwarf_bytes.specs.Numbers.{uleb_at};
ghost use Rattle.dwarf_lines.specs.Instructions.{encoding};
ghost use Rattle.dwarf_lines.specs.Matrix.{line_change, address_part, line_row};
ghost use Rattle.dwarf_lines.specs.declared.instruction.Instruction.TheVariants.{Special};
ghost use Rattle.dwarf_lines.specs.Private.Registers.{BuildsRow};
ghost use Rattle.dwarf_lines.specs.Private.Runs.{machine_of, AreUsual, ExecutesAt};
ghost use Rattle.dwarf_lines.specs.Private.Runs.{AdvancesLine, AdvancesAddress};
ghost use Rattle.dwarf_lines.specs.Private.Operands.{HasUsualOperands};

use crate::line_encoding::LineEncoding;
use crate::registers::Registers;
use crate::row::{Origin, Row};
use crate::usual_operands::{signed_at, unsigned_at};
use dwarf_bytes::constants::{
    DW_LNS_ADVANCE_LINE, DW_LNS_ADVANCE_PC, DW_LNS_SET_COLUMN, DW_LNS_SET_FILE,
};

/// The registers of a sequence that is not dead code, if its next row can be built.
#[derive(Clone, Copy)]
pub struct UsualRegisters {
    pub address: u64,
    pub line: u32,
    pub file: u64,
    /// The address of the last row of the sequence, or 0.
    pub previous: u64,
    /// Whether the sequence has had a row.
    pub has_row: bool,
}

/// Returns the line after an increment, if a row can have it.
// Inlined: called for most instructions.
#[inline(always)]
fn moved_line(line: u32, change: i64) -> Option<u32>
    requires { unsigned_abs change ≤ 2 ^ 40 }
    ensures { IfSome result (λ moved. pos moved ≡ pos line +ℤ change) }
{
    let moved = i64::from(line) + change;
    if moved < 0 || moved > i64::from(u32::MAX) {
        return None;
    }
    Some(moved as u32)
}

impl UsualRegisters {
    /// Returns the registers, if they are usual.
    // Inlined: called for each run of instructions.
    #[inline(always)]
    pub fn of(registers: &Registers, origin: Origin) -> Option<UsualRegisters>
        ensures same { IfSome result (λ usual. machine_of usual ≡ registers.now) }
        ensures usual { IfSome result (AreUsual origin) }
    {
        let address = registers.address?;
        if registers.at_tombstone
            || address < registers.previous
            || registers.file >= origin.files
            || registers.line < 0
            || registers.line > i128::from(u32::MAX)
        {
            return None;
        }
        Some(UsualRegisters {
            address,
            line: registers.line as u32,
            file: registers.file,
            previous: registers.previous,
            has_row: registers.has_row,
        })
    }

    /// Returns the registers of the machine.
    // Inlined: called for each run of instructions.
    #[inline(always)]
    pub fn registers(&self) -> Registers
        ensures { result ≡ machine_of self.now }
    {
        Registers {
            address: Some(self.address),
            line: i128::from(self.line),
            file: self.file,
            previous: self.previous,
            has_row: self.has_row,
            at_tombstone: false,
        }
    }

    /// Builds the row of the registers.
    // Inlined: called for each row.
    #[inline(always)]
    fn line_row(self, origin: Origin) -> Row
        requires usual { AreUsual origin self }
        ensures row { line_row origin self.previous self.address (pos self.line) self.file
            ≡ Ok result }
        ensures address { result.address ≡ self.address }
    {
        Row {
            address: self.address,
            program: origin.program,
            file: self.file,
            line: self.line,
            end: false,
        }
    }

    /// Builds the row of the registers and makes it the last row of the sequence.
    // Inlined: called for each row.
    #[inline(always)]
    pub fn row(&mut self, origin: Origin) -> Row
        requires usual { AreUsual origin self.old }
        ensures row { BuildsRow origin (machine_of self.old) self.old.address (Ok (Some result))
            (machine_of self.new) }
        ensures usual { AreUsual origin self.new }
    {
        let row = self.line_row(origin);
        self.previous = row.address;
        self.has_row = true;
        row
    }

    /// Advances the address and the line by a special opcode. Returns false, and changes nothing,
    /// if no row can have them.
    // Inlined: called for each special opcode.
    #[inline(always)]
    pub fn advance(&mut self, header: &LineEncoding, adjusted: u8) -> bool
        requires { 0 < header.now.line_range }
        ensures address { result ≡ true → self.new.address
            ≡ self.old.address + address_part (encoding header.now) adjusted }
        ensures line { result ≡ true → pos self.new.line
            ≡ pos self.old.line +ℤ line_change (encoding header.now) (Special adjusted) }
        ensures small { unsigned_abs (line_change (encoding header.now) (Special adjusted))
            ≤ 2 ^ 10 }
        ensures rest { self.new
            ≡ record self.old { address = self.new.address; line = self.new.line } }
        ensures kept { result ≡ false → self.new ≡ self.old }
    {
        let change = header.special_line(adjusted);
        let added = header.special_advance(adjusted);
        let Some(line) = moved_line(self.line, change) else {
            return false;
        };
        let Some(address) = self.address.checked_add(added) else {
            return false;
        };
        self.line = line;
        self.address = address;
        true
    }

    /// Advances the line by the operand at an offset. Returns the offset after it. If the result
    /// is unusual, changes nothing.
    // Inlined: it changes the registers of a loop.
    #[inline(always)]
    fn advance_line(&mut self, bytes: &[u8], place: usize) -> Option<usize>
        requires { place ≤ length bytes.now }
        ensures line { IfSome result (λ next.
            AdvancesLine bytes.now place next self.old.line self.new.line) }
        ensures rest { self.new ≡ record self.old { line = self.new.line } }
        ensures none { result ≡ None → self.new ≡ self.old }
        ensures moves { IfSome result (λ next. place < next) }
        ensures within { IfSome result (λ next. next ≤ length bytes.now) }
    {
        let (change, next) = signed_at(bytes, place)?;
        self.line = moved_line(self.line, change)?;
        Some(next)
    }

    /// Advances the address by the operand at an offset. Returns the offset after it. If the
    /// result is unusual, changes nothing.
    // Inlined: it changes the registers of a loop.
    #[inline(always)]
    fn advance_pc(&mut self, header: &LineEncoding, bytes: &[u8], place: usize) -> Option<usize>
        requires { place ≤ length bytes.now }
        ensures address { IfSome result (λ next. AdvancesAddress bytes.now place next
            header.now.minimum_instruction_length self.old.address self.new.address) }
        ensures rest { self.new ≡ record self.old { address = self.new.address } }
        ensures none { result ≡ None → self.new ≡ self.old }
        ensures moves { IfSome result (λ next. place < next) }
        ensures within { IfSome result (λ next. next ≤ length bytes.now) }
    {
        let (operand, next) = unsigned_at(bytes, place)?;
        let added = u64::from(header.minimum_instruction_length).checked_mul(operand)?;
        self.address = self.address.checked_add(added)?;
        Some(next)
    }

    /// Sets the file to the operand at an offset. Returns the offset after it. If no row can have
    /// the file, changes nothing.
    // Inlined: it changes the registers of a loop.
    #[inline(always)]
    fn set_file(&mut self, origin: Origin, bytes: &[u8], place: usize) -> Option<usize>
        requires { place ≤ length bytes.now }
        ensures file { IfSome result (λ next. uleb_at bytes.now place ≡ Ok (self.new.file, next)) }
        ensures valid { IfSome result (λ _. self.new.file < origin.files) }
        ensures rest { self.new ≡ record self.old { file = self.new.file } }
        ensures none { result ≡ None → self.new ≡ self.old }
        ensures moves { IfSome result (λ next. place < next) }
        ensures within { IfSome result (λ next. next ≤ length bytes.now) }
    {
        let (file, next) = unsigned_at(bytes, place)?;
        if file >= origin.files {
            return None;
        }
        self.file = file;
        Some(next)
    }

    /// Executes the instruction at an offset, if it is a usual one with an operand. Returns the
    /// offset after it. Otherwise changes nothing.
    // Inlined: called for most instructions.
    #[inline(always)]
    pub fn step_with_operand(
        &mut self,
        header: &LineEncoding,
        origin: Origin,
        bytes: &[u8],
        at: usize,
    ) -> Option<usize>
        requires at { at < length bytes.now }
        requires standard { slice_index bytes.now at < header.now.opcode_base }
        requires operands { HasUsualOperands header.now.opcode_lengths.now }
        ensures executes { IfSome result (λ next. ExecutesAt (encoding header.now) origin bytes.now
            at (machine_of self.old) next (machine_of self.new) []) }
        ensures usual { AreUsual origin self.old → AreUsual origin self.new }
        ensures none { result ≡ None → self.new ≡ self.old }
        ensures within { IfSome result (λ next. next ≤ length bytes.now) }
    {
        match bytes[at] {
            DW_LNS_SET_COLUMN => Some(unsigned_at(bytes, at + 1)?.1),
            DW_LNS_ADVANCE_LINE => self.advance_line(bytes, at + 1),
            DW_LNS_ADVANCE_PC => self.advance_pc(header, bytes, at + 1),
            DW_LNS_SET_FILE => self.set_file(origin, bytes, at + 1),
            _ => None,
        }
    }
}

//! Entries of range lists (DWARF 5, 2.17.3 and 7.25).

ghost use Rattle.std.specs.Prelude.{◌≡◌, ◌<◌, IsSome, IfOk};
ghost use Rattle.dwarf_bytes.specs.Refusals.{ReadsField, ReadsNext};
ghost use Rattle.dwarf_ranges.specs.Ranges.{operands_of, operand_at, end_of, range_of, entry_at};
ghost use Rattle.dwarf_ranges.specs.Ranges.{list_entry_of};
ghost use Rattle.dwarf_walk.specs.Sections.{sections_of};

use crate::bases::{Bases, item_at};
use crate::range::{Range, live_range, live_range_from_base};
use dwarf_bytes::constants::*;
use dwarf_bytes::{Cause, Cursor, TableKind};
use dwarf_walk::Sections;

/// An operand of an entry: an index of `.debug_addr`, an address, or a number.
#[derive(Clone, Copy)]
pub(crate) enum Operand {
    Index,
    Address,
    Number,
}

/// The operands of an entry. One operand sets the base, and two operands cover a range.
#[derive(Clone, Copy)]
pub(crate) struct Operands {
    pub(crate) first: Operand,
    pub(crate) second: Option<Operand>,
}

/// Returns the operands of the kind of entry with a code, or `None` for the end of a list. Fails if
/// the code is unknown.
#[inline(never)]
fn operands_of(code: u8) -> Result<Option<Operands>, Cause>
    ensures { result ≡ operands_of code }
{
    let (first, second) = match code {
        DW_RLE_END_OF_LIST => return Ok(None),
        DW_RLE_BASE_ADDRESSX => (Operand::Index, None),
        DW_RLE_STARTX_ENDX => (Operand::Index, Some(Operand::Index)),
        DW_RLE_STARTX_LENGTH => (Operand::Index, Some(Operand::Number)),
        DW_RLE_OFFSET_PAIR => (Operand::Number, Some(Operand::Number)),
        DW_RLE_BASE_ADDRESS => (Operand::Address, None),
        DW_RLE_START_END => (Operand::Address, Some(Operand::Address)),
        DW_RLE_START_LENGTH => (Operand::Address, Some(Operand::Number)),
        _ => return Err(Cause::RangeKind),
    };
    Ok(Some(Operands { first, second }))
}

/// An entry of a range list: the base that it sets, or the range that it covers, if any.
#[derive(Clone, Copy)]
pub(crate) enum RangeListEntry {
    Base(u64),
    Covers(Option<Range>),
}

/// Reads an operand at the cursor. The value of an index is the address at the index.
#[inline(always)]
fn operand_value(
    operand: Operand,
    sections: &Sections<'_>,
    bases: &Bases,
    cursor: &mut Cursor,
) -> Result<u64, Cause>
    ensures { ReadsField (λ value. value) result (operand_at
        (sections_of sections.now) bases.now operand) cursor.old cursor.new }
{
    match operand {
        Operand::Index => {
            let index = cursor.uleb()?;
            item_at(TableKind::Addr, sections.debug_addr, bases.addr, index)
        }
        Operand::Address => Ok(cursor.u64()?),
        Operand::Number => Ok(cursor.uleb()?),
    }
}

/// Returns the end of a range, given its second operand. A number is the length of the range.
fn end_of(second: Operand, start: u64, value: u64) -> u128
    ensures { result ≡ end_of second start value }
{
    match second {
        Operand::Index | Operand::Address => u128::from(value),
        Operand::Number => u128::from(start) + u128::from(value),
    }
}

/// Returns the range of two operands. Two numbers are offsets from the current base.
fn range_of(
    first: Operand,
    second: Operand,
    base: Option<u64>,
    start: u64,
    value: u64,
) -> Result<Option<Range>, Cause>
    ensures { result ≡ range_of first second base start value }
{
    match first {
        Operand::Index | Operand::Address => {
            live_range(u128::from(start), end_of(second, start, value))
        }
        Operand::Number => live_range_from_base(base.ok_or(Cause::Base)?, start, value),
    }
}

/// Reads the operands of an entry at the cursor. `base` is the current base.
#[inline(always)]
#[tactic(auto, unfolding(crate::specs::Ranges::entry_at))]
fn entry(
    operands: Operands,
    base: Option<u64>,
    sections: &Sections<'_>,
    bases: &Bases,
    cursor: &mut Cursor,
) -> Result<RangeListEntry, Cause>
    ensures { ReadsField (λ entry. entry) result (entry_at
        (sections_of sections.now) bases.now base operands) cursor.old cursor.new }
{
    let start = operand_value(operands.first, sections, bases, cursor)?;
    let Some(second) = operands.second else {
        return Ok(RangeListEntry::Base(start));
    };
    let value = operand_value(second, sections, bases, cursor)?;
    let range = range_of(operands.first, second, base, start, value)?;
    Ok(RangeListEntry::Covers(range))
}

/// Reads the entry at the cursor, or returns `None` at the end of the list. `count` is the number
/// of entries before it, `budget` the maximum number of entries, and `base` the current base. The
/// most common kinds are tested first, because the order of kinds is hard to predict.
pub(crate) fn next_entry(
    budget: u64,
    count: u64,
    base: Option<u64>,
    sections: &Sections<'_>,
    bases: &Bases,
    cursor: &mut Cursor,
) -> Result<Option<RangeListEntry>, Cause>
    ensures reads { ReadsNext result (list_entry_of budget
        (sections_of sections.now) bases.now count base) cursor.old cursor.new }
    ensures budget { IfOk result (λ next. IsSome next → count < budget) }
{
    let code = cursor.u8()?;
    if code == DW_RLE_OFFSET_PAIR && count < budget {
        let operands = Operands {
            first: Operand::Number,
            second: Some(Operand::Number),
        };
        return Ok(Some(entry(operands, base, sections, bases, cursor)?));
    }
    if code == DW_RLE_END_OF_LIST {
        return Ok(None);
    }
    let Some(operands) = operands_of(code)? else {
        return Ok(None);
    };
    if count >= budget {
        return Err(Cause::TooMany);
    }
    Ok(Some(entry(operands, base, sections, bases, cursor)?))
}

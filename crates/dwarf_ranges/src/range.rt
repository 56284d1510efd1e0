//! Address ranges, without those of discarded code (DWARF 5, 2.17.3).

ghost use Rattle.std.specs.Prelude.{◌≡◌};
ghost use Rattle.dwarf_ranges.specs.Ranges.{range_between, live_range, live_range_from_base};

use dwarf_bytes::Cause;

/// The tombstone: the start address of discarded code (2^64-1). No code has this address.
const DROPPED: u64 = u64::MAX;

/// An address range from `from` up to `to` (exclusive).
#[derive(Clone, Copy, Debug, Default, PartialEq, Eq)]
pub struct Range {
    pub from: u64,
    pub to: u64,
}

/// Returns the range from `start` up to `end` (exclusive), or `None` if they are equal. Fails if
/// the range is backwards or does not fit into 64 bits.
fn range_between(start: u128, end: u128) -> Result<Option<Range>, Cause>
    ensures { result ≡ range_between (start, end) }
{
    let (Ok(from), Ok(to)) = (u64::try_from(start), u64::try_from(end)) else {
        return Err(Cause::Overflow);
    };
    if to < from {
        return Err(Cause::RangeBackwards);
    }
    if from == to {
        return Ok(None);
    }
    Ok(Some(Range { from, to }))
}

/// Returns the range from `start` up to `end`, or `None` if `start` is the tombstone.
pub(crate) fn live_range(start: u128, end: u128) -> Result<Option<Range>, Cause>
    ensures { result ≡ live_range (start, end) }
{
    if start == u128::from(DROPPED) {
        return Ok(None);
    }
    range_between(start, end)
}

/// Returns the range between two offsets from a base, or `None` if the base is the tombstone.
pub(crate) fn live_range_from_base(base: u64, start: u64, end: u64) -> Result<Option<Range>, Cause>
    ensures { result ≡ live_range_from_base base (start, end) }
{
    if base == DROPPED {
        return Ok(None);
    }
    let base = u128::from(base);
    range_between(base + u128::from(start), base + u128::from(end))
}

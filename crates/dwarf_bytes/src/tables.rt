//! The tables that a unit's base attributes point into.

ghost use Rattle.std.specs.Prelude.{◌≡◌, MatchResult, Ok, Err, nat_lt, if◌then◌else◌, ◌≤◌, ◌+◌};
ghost use Rattle.std.specs.Prelude.{◌*◌, length};
ghost use Rattle.dwarf_bytes.specs.declared.fault.Cause.TheVariants as causes;
ghost use Rattle.dwarf_bytes.specs.Tables.{head_len, table_before, is_truncated, is_length};
ghost use Rattle.dwarf_bytes.specs.Tables.{unit_length, table_end, offset_count, item_count};
ghost use Rattle.dwarf_bytes.specs.Numbers.{length_len, offset_len};

use crate::fault::Cause;
use crate::fields::{byte_at, u16_at, u32_at, u64_at};
use crate::format::Format;

/// The kind of table: `.debug_str_offsets`, `.debug_addr` or `.debug_rnglists`.
#[derive(Clone, Copy, Debug, PartialEq, Eq)]
pub enum TableKind {
    StrOffsets,
    Addr,
    RngLists,
}

impl TableKind {
    /// Returns the size of the table's header in bytes.
    fn head_len(self, format: Format) -> u64
        ensures { result ≡ head_len self format }
    {
        match self {
            TableKind::StrOffsets | TableKind::Addr => format.length_len() + 4,
            TableKind::RngLists => format.length_len() + 8,
        }
    }
}

/// The end of a table as an offset into its section, and the number of its items.
#[derive(Clone, Copy, Debug, PartialEq, Eq)]
pub struct TableHead {
    pub end: u64,
    pub items: u64,
}

impl TableHead {
    /// Parses the header that precedes `base`, an offset into the section. `format` is the format
    /// of the unit with that base.
    #[tactic(auto, unfolding(crate::specs::Tables::table_before))]
    pub fn before(
        section: &[u8],
        base: u64,
        kind: TableKind,
        format: Format,
    ) -> Result<TableHead, Cause>
        ensures { MatchResult result (λ head. table_before kind format section.now base ≡ Ok head)
            (λ cause. table_before kind format section.now base ≡ Err cause) }
    {
        if base < kind.head_len(format) || base > section.len() as u64 {
            return Err(Cause::Base);
        }
        let start = (base - kind.head_len(format)) as usize;
        if is_truncated(section, start, format) {
            return Err(Cause::Short);
        }
        if !is_length(section, start, format) {
            return Err(Cause::Length);
        }
        let version = start + format.length_len() as usize;
        let Some(end) = (version as u64).checked_add(unit_length(section, start, format)) else {
            return Err(Cause::Short);
        };
        if end > section.len() as u64 || end < base {
            return Err(Cause::Short);
        }
        if u16_at(section, version) != 5 {
            return Err(Cause::Version);
        }
        if kind != TableKind::StrOffsets {
            if byte_at(section, version + 2) != 8 {
                return Err(Cause::AddressSize);
            }
            if byte_at(section, version + 3) != 0 {
                return Err(Cause::SegmentSize);
            }
        }
        let items = items_up_to(end, section, base, kind, format)?;
        Ok(TableHead { end, items })
    }
}

/// Returns the number of items between the base and the end. If the header has an offset count,
/// that many offsets must fit.
fn items_up_to(
    end: u64,
    section: &[u8],
    base: u64,
    kind: TableKind,
    format: Format,
) -> Result<u64, Cause>
    requires head { head_len kind format ≤ base }
    requires inside { base ≤ end × end ≤ length section.now }
    requires ends { end ≡ table_end kind format section.now base }
    ensures { result ≡ (if
        nat_lt end (base + offset_len format * offset_count kind format section.now base)
        then Err causes.Short else Ok (item_count kind format section.now base)) }
{
    match kind {
        TableKind::StrOffsets => Ok((end - base) / format.offset_len()),
        TableKind::Addr => Ok((end - base) / 8),
        TableKind::RngLists => {
            let count = u64::from(u32_at(section, (base - 4) as usize));
            if base + format.offset_len() * count > end {
                return Err(Cause::Short);
            }
            Ok(count)
        }
    }
}

/// Whether a 64-bit initial length starts at `start` of a 32-bit unit and is truncated.
fn is_truncated(section: &[u8], start: usize, format: Format) -> bool
    requires { start + length_len format + 4 ≤ length section.now }
    ensures { result ≡ is_truncated format section.now start }
{
    match format {
        Format::Dwarf32 => u32_at(section, start) == 0xffff_ffff && section.len() - start < 12,
        Format::Dwarf64 => false,
    }
}

fn is_length(section: &[u8], start: usize, format: Format) -> bool
    requires { start + length_len format + 4 ≤ length section.now }
    ensures { result ≡ is_length format section.now start }
{
    match format {
        Format::Dwarf32 => u32_at(section, start) < 0xffff_fff0,
        Format::Dwarf64 => u32_at(section, start) == 0xffff_ffff,
    }
}

fn unit_length(section: &[u8], start: usize, format: Format) -> u64
    requires { start + length_len format + 4 ≤ length section.now }
    ensures { result ≡ unit_length format section.now start }
{
    match format {
        Format::Dwarf32 => u64::from(u32_at(section, start)),
        Format::Dwarf64 => u64_at(section, start + 4),
    }
}

//! Compact storage of the file and line of a call (DWARF 5, 3.3.8.1).

ghost use Rattle.std.specs.Prelude.{◌≡◌, ◌<◌, ◌++◌, ◌^◌, ℕ, List, length, IfOk, IfSome, IsSome};
ghost use Rattle.std.specs.Prelude.{SomeIff};
ghost use Rattle.dwarf_entries.specs.{declared.calls.CallSite.CallSite as Site, Scopes.call_site};
ghost use Rattle.dwarf_entries.specs.{Scopes.wide_index, Private.Shared.{IsInList, IsShort}};

use dwarf_walk::narrow;
use std::alloc::AllocError;

/// The file and line numbers of a call site, as the entry encodes them.
#[derive(Clone, Copy, Debug)]
pub(crate) struct CallSite {
    pub(crate) file: Option<u64>,
    pub(crate) line: Option<u64>,
}

/// The numbers that a call site has. A call site with a number of more than 16 bits is `Wide` and
/// is stored in a separate list.
#[derive(Clone, Copy, Debug)]
pub(crate) enum Calls {
    Missing,
    File,
    Line,
    Both,
    Wide,
}

impl CallSite {
    /// Decodes a packed call site. `wide` has the call sites that need more than 16 bits.
    pub(crate) fn unpack(calls: Calls, file: u16, line: u16, wide: &[CallSite]) -> CallSite
        ensures { result ≡ call_site wide.now calls file line }
    {
        let (file_too, line_too) = (u64::from(file), u64::from(line));
        let (file, line) = match calls {
            Calls::Missing => (None, None),
            Calls::File => (Some(file_too), None),
            Calls::Line => (None, Some(line_too)),
            Calls::Both => (Some(file_too), Some(line_too)),
            Calls::Wide => match wide.get(wide_index(file, line)) {
                Some(site) => (site.file, site.line),
                None => (None, None),
            },
        };
        CallSite { file, line }
    }

    /// Packs a call site as the numbers that it has, the file and the line. A call site with a
    /// number of more than 16 bits is appended to `wide`. Its index there is returned: the low half
    /// as the file, and the high half as the line.
    pub(crate) fn pack(self, wide: &mut Vec<CallSite>) -> Result<(Calls, u16, u16), AllocError>
        ensures described { IfOk result (λ parts. call_site wide.new.items parts.0 parts.1 parts.2
            ≡ self) }
        ensures in_list { IfOk result (λ parts. IsInList (length wide.new.items) parts.0 parts.1
            parts.2) }
        ensures added { IfOk result (λ parts. (more : List Site)
            × (wide.new.items ≡ wide.old.items ++ more)) }
        ensures few { IsShort self.file → IsShort self.line
            → IfOk result (λ _. wide.new.items ≡ wide.old.items) }
    {
        if let Some(parts) = self.short_parts() {
            return Ok(parts);
        }
        let index = narrow(wide.len())?;
        wide.push(self)?;
        let (low, high) = halves(index);
        Ok((Calls::Wide, low, high))
    }

    /// Packs a call site, or returns `None` if one of its numbers has more than 16 bits.
    fn short_parts(self) -> Option<(Calls, u16, u16)>
        ensures described { IfSome result (λ parts. (wide : List Site)
            → call_site wide parts.0 parts.1 parts.2 ≡ self) }
        ensures in_list { IfSome result (λ parts. (many : ℕ)
            → IsInList many parts.0 parts.1 parts.2) }
        ensures some { IsShort self.file → IsShort self.line → IsSome result }
    {
        match (self.file, self.line) {
            (None, None) => Some((Calls::Missing, 0, 0)),
            (Some(file), None) => Some((Calls::File, short_number(file)?, 0)),
            (None, Some(line)) => Some((Calls::Line, 0, short_number(line)?)),
            (Some(file), Some(line)) => {
                Some((Calls::Both, short_number(file)?, short_number(line)?))
            }
        }
    }
}

/// Converts a number to 16 bits, or returns `None` if it has more.
fn short_number(number: u64) -> Option<u16>
    ensures { SomeIff result (number < 2 ^ 16) number }
{
    match u16::try_from(number) {
        Ok(short) => Some(short),
        Err(_) => None,
    }
}

/// Splits an index into its low and its high half.
fn halves(index: u32) -> (u16, u16)
    ensures { wide_index result.0 result.1 ≡ index }
{
    ((index % 65_536) as u16, (index / 65_536) as u16)
}

/// Joins the low and the high half of an index.
fn wide_index(low: u16, high: u16) -> usize
    ensures { result ≡ wide_index low high }
{
    usize::from(low) + 65_536 * usize::from(high)
}

//! Section names. A malicious file may have a very long name to which every header refers, so no
//! name is scanned to its end.

ghost use Rattle.std.specs.Prelude.{◌≡◌, ◌<◌, Ok, Err, MatchResult, IfOk, IfSome, position};
ghost use Rattle.dwarf_bytes.specs.Numbers.{text_at};
ghost use Rattle.dwarf_bytes.specs.Words.{section_name};
ghost use Rattle.dwarf_bytes.specs.Private.SectionNames.{IsNumberAt, begins_with};

use crate::fault::{ReadFault, Section};
use crate::text::strings_end;
use std::marker::Model;

/// The sections to find, in the order in which their spans are stored.
const WANTED: [Section; 8] = [
    Section::DebugInfo,
    Section::DebugAbbrev,
    Section::DebugLine,
    Section::DebugLineStr,
    Section::DebugStr,
    Section::DebugStrOffsets,
    Section::DebugAddr,
    Section::DebugRnglists,
];

/// The section of the section names.
#[derive(Drop)]
pub(crate) struct SectionNames<'a> {
    bytes: &'a [u8],
    /// The offset after the last NUL.
    end: usize,
}

impl<'a> Model for SectionNames<'a> {
    ghost use Rattle.std.specs.Prelude.{ℕ, List};
    ghost use Rattle.dwarf_bytes.specs.Numbers.{EndsStrings};

    ghost Value = { List ℕ };

    ghost view = { λ names. names.bytes.now };

    ghost invariant = { λ names. EndsStrings names.bytes.now names.end };
}

impl<'a> SectionNames<'a> {
    pub(crate) fn of(bytes: &'a [u8]) -> SectionNames<'a>
        ensures { result ≡ bytes.now }
    {
        SectionNames {
            bytes,
            end: strings_end(bytes),
        }
    }

    /// Returns the index in `WANTED` of the section with the name at an offset. Returns a fault if
    /// the name has no NUL.
    pub(crate) fn wanted_index(&self, offset: u64) -> Result<Option<usize>, ReadFault>
        ensures number { MatchResult result (λ number. IsNumberAt self.now offset number)
            (λ fault. text_at self.now offset ≡ Err fault) }
        ensures within { IfOk result (λ number. IfSome number (λ n. n < 8)) }
    {
        if offset >= self.end as u64 {
            return Err(ReadFault::Unterminated);
        }
        Ok(number_of(&self.bytes[offset as usize..]))
    }
}

/// Returns the index in `WANTED` of the name at the start of the bytes.
fn number_of(bytes: &[u8]) -> Option<usize>
    ensures number { result ≡ position (λ s. begins_with bytes.now (section_name s)) WANTED }
    ensures within { IfSome result (λ number. number < 8) }
{
    WANTED
        .iter()
        .position(|section| begins_with(bytes, section.name().as_bytes()))
}

/// Whether the bytes start with the string and a NUL.
fn begins_with(bytes: &[u8], text: &[u8]) -> bool
    ensures { result ≡ begins_with bytes.now text.now }
{
    text.len() < bytes.len() && bytes.starts_with(text) && bytes[text.len()] == 0
}

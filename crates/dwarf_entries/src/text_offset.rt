//! Locations of strings (DWARF 5, 7.5.5, class string).

ghost use Rattle.std.specs.Prelude.{◌≡◌, None, Some, IfOk};
ghost use Rattle.dwarf_entries.specs.{Private.PackedNames.unpacked_text, Scopes.text_by};

use dwarf_bytes::Section;
use std::alloc::AllocError;

/// The location of a NUL-terminated string: the section that contains it, and its offset there.
/// The string ends before the first NUL from this offset on.
#[derive(Clone, Copy, Debug, PartialEq, Eq)]
pub struct TextOffset {
    pub section: Section,
    pub offset: usize,
}

/// The offset that means that there is no string.
const MISSING: u32 = u32::MAX;

/// The location of a string, which may be missing. It takes eight bytes.
#[derive(Clone, Copy)]
pub(crate) struct PackedText {
    pub(crate) section: Section,
    /// The offset in the section, or `MISSING`.
    pub(crate) offset: u32,
}

impl PackedText {
    /// Returns a missing string.
    pub(crate) fn none() -> PackedText
        ensures { unpacked_text result ≡ None }
    {
        PackedText {
            section: Section::DebugStr,
            offset: MISSING,
        }
    }

    /// Packs a location. An offset of 2^32 - 1 or more is reported as an allocation failure.
    pub(crate) fn of(text: TextOffset) -> Result<PackedText, AllocError>
        ensures { IfOk result (λ packed. unpacked_text packed ≡ Some text) }
    {
        if text.offset >= MISSING as usize {
            return Err(AllocError);
        }
        Ok(PackedText {
            section: text.section,
            offset: text.offset as u32,
        })
    }
}

/// Returns the string at an offset of a section; `None` for the offset of a missing string.
pub(crate) fn text_by(section: Section, offset: u32) -> Option<TextOffset>
    ensures { result ≡ text_by section offset }
{
    if offset == MISSING {
        return None;
    }
    Some(TextOffset {
        section,
        offset: offset as usize,
    })
}

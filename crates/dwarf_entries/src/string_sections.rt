//! The sections that contain strings (DWARF 5, 7.5.5). An offset at or before the last NUL of a
//! section is the offset of a valid string, so the bytes of the string are not read.

ghost use Rattle.std.specs.Prelude.{◌≡◌};
ghost use Rattle.dwarf_walk.specs.Sections.{sections_of};
ghost use Rattle.dwarf_entries.specs.Private.StringSections.{AreStringSections, text_place};

use dwarf_bytes::{ReadFault, strings_end};
use dwarf_walk::Sections;
use std::marker::Model;

/// A section that contains strings.
#[derive(Drop)]
pub(crate) struct StringSection<'a> {
    bytes: &'a [u8],
    /// The number of bytes up to and including the last NUL.
    end: usize,
}

impl<'a> Model for StringSection<'a> {
    ghost use Rattle.std.specs.Prelude.{ℕ, List};
    ghost use Rattle.dwarf_bytes.specs.Numbers.{EndsStrings};

    ghost Value = { List ℕ };

    ghost view = { λ section. section.bytes.now };

    ghost invariant = { λ section. EndsStrings section.bytes.now section.end };
}

impl<'a> StringSection<'a> {
    fn of(bytes: &'a [u8]) -> StringSection<'a>
        ensures { result ≡ bytes.now }
    {
        StringSection {
            bytes,
            end: strings_end(bytes),
        }
    }

    /// Returns an offset if it is the offset of a valid string.
    // Inlined: called for each name.
    #[inline(always)]
    pub(crate) fn text_at(&self, offset: u64) -> Result<usize, ReadFault>
        ensures { result ≡ text_place self.now offset }
    {
        if offset >= self.end as u64 {
            return Err(ReadFault::Unterminated);
        }
        Ok(offset as usize)
    }
}

/// The sections that contain strings.
#[derive(Drop)]
pub(crate) struct StringSections<'a> {
    pub(crate) info: StringSection<'a>,
    pub(crate) str: StringSection<'a>,
    pub(crate) line_str: StringSection<'a>,
}

impl<'a> StringSections<'a> {
    /// Finds the last NUL of each string section of an object.
    pub(crate) fn of(sections: &Sections<'a>) -> StringSections<'a>
        ensures { AreStringSections (sections_of sections.now) result }
    {
        StringSections {
            info: StringSection::of(sections.debug_info),
            str: StringSection::of(sections.debug_str),
            line_str: StringSection::of(sections.debug_line_str),
        }
    }
}

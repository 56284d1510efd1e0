//! The sections that entries are read from.

ghost use Rattle.std.specs.Prelude.{◌≡◌};
ghost use Rattle.dwarf_walk.specs.Sections.{sections_of, sections_in};

use dwarf_bytes::Layout;

/// The contents of the debug sections of an object.
#[derive(Clone, Copy, Debug)]
pub struct Sections<'a> {
    pub debug_info: &'a [u8],
    pub debug_abbrev: &'a [u8],
    pub debug_line: &'a [u8],
    pub debug_line_str: &'a [u8],
    pub debug_str: &'a [u8],
    pub debug_str_offsets: &'a [u8],
    pub debug_addr: &'a [u8],
    pub debug_rnglists: &'a [u8],
}

impl Sections<'_> {
    /// Slices the sections out of an object's bytes. A section beyond their end is truncated.
    pub fn of<'a>(bytes: &'a [u8], layout: &Layout) -> Sections<'a>
        ensures { sections_of result ≡ sections_in bytes.now layout.now }
    {
        Sections {
            debug_info: layout.debug_info.of(bytes),
            debug_abbrev: layout.debug_abbrev.of(bytes),
            debug_line: layout.debug_line.of(bytes),
            debug_line_str: layout.debug_line_str.of(bytes),
            debug_str: layout.debug_str.of(bytes),
            debug_str_offsets: layout.debug_str_offsets.of(bytes),
            debug_addr: layout.debug_addr.of(bytes),
            debug_rnglists: layout.debug_rnglists.of(bytes),
        }
    }
}

//! The two formats of DWARF data (DWARF 5, 7.4).

ghost use Rattle.std.specs.Prelude.{◌≡◌};
ghost use Rattle.dwarf_bytes.specs.Numbers.{length_len, offset_len};

/// The format of a unit, which determines the width of its offsets and lengths.
#[derive(Clone, Copy, Debug, PartialEq, Eq)]
pub enum Format {
    /// The 32-bit format.
    Dwarf32,
    /// The 64-bit format.
    Dwarf64,
}

impl Format {
    /// Returns the number of bytes of an initial length.
    pub fn length_len(self) -> u64
        ensures { result ≡ length_len self }
    {
        match self {
            Format::Dwarf32 => 4, // unit_length
            Format::Dwarf64 => 12,
        }
    }

    /// Returns the number of bytes of an offset into a section.
    pub fn offset_len(self) -> u64
        ensures { result ≡ offset_len self }
    {
        match self {
            Format::Dwarf32 => 4, // offset_size
            Format::Dwarf64 => 8,
        }
    }
}

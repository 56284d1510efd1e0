//! A bitmap of the offsets at which entries start, with one bit for each byte of the section.

ghost use Rattle.std.specs.Prelude.{◌≡◌, ℕ, [], ◌∷◌, false, IfOk, OnOk, if◌then◌else◌};
ghost use Rattle.dwarf_walk.specs.EntryBitmap.{has_entry, AddsOffsets};

use std::alloc::{AllocError, Global};

/// The number of bits in a word.
const WORD: usize = 64;

/// A bitmap of entry offsets. Offsets beyond the last word are not set.
#[derive(Drop)]
pub struct EntryBitmap {
    words: Vec<u64>,
}

impl EntryBitmap {
    /// Creates an empty bitmap for a section of `len` bytes.
    pub fn new(alloc: Global, len: usize) -> Result<EntryBitmap, AllocError>
        ensures { IfOk result (λ bitmap. (place : ℕ) → has_entry bitmap place ≡ false) }
    {
        let words = vec![in alloc; 0; len / WORD + 1]?;
        Ok(EntryBitmap { words })
    }

    /// Sets the bit of an offset if an entry is there. Fails if the offset is beyond the last word.
    #[tactic(auto, using(crate::proofs::BitmapLaws::adds_bit))]
    pub(crate) fn add_offset(&mut self, place: usize, is_entry: bool) -> Result<(), AllocError>
        ensures { OnOk result (AddsOffsets self.old self.new
            (if is_entry then place ∷ [] else [])) }
    {
        if place / WORD >= self.words.len() {
            return Err(AllocError);
        }
        self.words[place / WORD] |= u64::from(is_entry) << (place % WORD);
        Ok(())
    }

    /// Returns whether the bit of an offset is set.
    pub fn has_entry(&self, place: usize) -> bool
        ensures { result ≡ has_entry self.now place }
    {
        match self.words.get(place / WORD) {
            Some(word) => (*word >> (place % WORD)) % 2 == 1,
            None => false,
        }
    }
}

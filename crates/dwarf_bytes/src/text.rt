//! NUL-terminated strings (DWARF 5, 7.5.5, class string).

ghost use Rattle.std.specs.Prelude.{◌≡◌, ◌<◌, Ok, Err, IfSome, option_map, MatchResult, ◌==◌};
ghost use Rattle.std.specs.Prelude.{position, length};
ghost use Rattle.dwarf_bytes.specs.Numbers.{text_front, text_at, EndsStrings};

use crate::fault::{ReadFault, Section};
use crate::layout::Span;
use bstr::ByteSlice;

/// A string, stored as its section and its span without the NUL.
#[derive(Clone, Copy, Debug, PartialEq, Eq)]
pub struct Text {
    pub section: Section,
    pub span: Span,
}

/// Returns the offset of the first NUL.
pub(crate) fn first_nul(bytes: &[u8]) -> Option<usize>
    ensures place { result ≡ position (λ byte. byte == 0) bytes.now }
    ensures within { IfSome result (λ place. place < length bytes.now) }
{
    bytes.find_byte(0)
}

/// Returns the string at the start of the bytes, without its NUL.
#[tactic(auto, unfolding(crate::specs::Numbers::text_front))]
pub(crate) fn text_front(bytes: &[u8]) -> Option<&[u8]>
    ensures text { option_map (λ text. text.now) result ≡ text_front bytes.now }
    ensures nul { IfSome result (λ text. length text.now < length bytes.now) }
{
    let len = first_nul(bytes)?;
    Some(&bytes[..len])
}

/// Returns the string at an offset of a section, without its NUL.
#[tactic(auto, unfolding(crate::specs::Numbers::text_at), using(crate::proofs::Nuls::outside))]
pub fn text_at(section: &[u8], offset: u64) -> Result<&[u8], ReadFault>
    ensures { MatchResult result (λ text. text_at section.now offset ≡ Ok text.now)
        (λ fault. text_at section.now offset ≡ Err fault) }
{
    if offset > section.len() as u64 {
        return Err(ReadFault::Unterminated);
    }
    text_front(&section[offset as usize..]).ok_or(ReadFault::Unterminated)
}

/// Returns the offset after the last NUL of a section, or 0 if there is none. A string starts at
/// each offset below it and at no other offset. So an offset is validated without reading bytes.
pub fn strings_end(bytes: &[u8]) -> usize
    ensures { EndsStrings bytes.now result }
{
    match bytes.rfind_byte(0) {
        Some(last) => last + 1,
        None => 0,
    }
}

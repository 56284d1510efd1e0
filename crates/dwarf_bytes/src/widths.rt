//! Numbers of a width that an attribute form determines (DWARF 5, 7.5.6).

ghost use Rattle.std.specs.Prelude.{◌≡◌, ◌+◌, ◌^◌};
ghost use Rattle.dwarf_bytes.specs.Forms.{byte_len, number_at};

use crate::content::number;
use crate::cursor::Cursor;
use crate::fields::u64_at;
use crate::form::Width;

/// Returns the number of a width at an offset, if its bytes are present.
// Inlined into other crates: called for each attribute of each scope. It reads eight bytes for each
// width, because a jump by the width is hard to predict.
#[inline(always)]
pub(crate) fn number_at(bytes: &[u8], at: usize, width: Width) -> Option<u64>
    ensures { result ≡ number_at width bytes.now at }
{
    if bytes.len() < 8 || at > bytes.len() - 8 {
        return number_near_end(bytes, at, width);
    }
    Some(u64_at(bytes, at) & greatest(width))
}

/// Returns the number of a width at an offset that can be less than eight bytes before the end.
#[cold]
#[inline(never)]
#[tactic(auto, unfolding(crate::specs::Numbers::block_at, crate::specs::Numbers::fixed_at))]
fn number_near_end(bytes: &[u8], at: usize, width: Width) -> Option<u64>
    ensures { result ≡ number_at width bytes.now at }
{
    let mut cursor = Cursor::new(bytes);
    cursor.seek(at).ok()?;
    number(width, &mut cursor).ok()
}

/// Returns the greatest number of a width.
fn greatest(width: Width) -> u64
    ensures { result + 1 ≡ 256 ^ byte_len width }
{
    match width {
        Width::One => 0xff,
        Width::Two => 0xffff,
        Width::Three => 0xff_ffff,
        Width::Four => 0xffff_ffff,
        Width::Eight => u64::MAX,
    }
}

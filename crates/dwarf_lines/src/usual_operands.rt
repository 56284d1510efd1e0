//! Operands of usual instructions: LEB128 numbers of one or two bytes.

ghost use Rattle.std.specs.Prelude.{◌≡◌, ◌≤◌, ◌<◌, ◌+◌, ◌*◌, ◌-◌, ◌^◌, length, Ok, IfSome, pos};
ghost use Rattle.std.specs.Prelude.{◌-ℤ◌, nat_le, unsigned_abs, if◌then◌else◌};
ghost use Rattle.dwarf_bytes.specs.Numbers.{uleb_at, sleb_at};

/// Reads the unsigned number at an offset. Returns it and the offset after it.
// Inlined: called for half of the instructions.
#[inline(always)]
pub fn unsigned_at(bytes: &[u8], place: usize) -> Option<(u64, usize)>
    ensures value { IfSome result (λ read. uleb_at bytes.now place ≡ Ok read) }
    ensures moves { IfSome result (λ read. place < read.1) }
    ensures within { IfSome result (λ read. read.1 ≤ length bytes.now) }
{
    let low = *bytes.get(place)?;
    if low < 0x80 {
        return Some((u64::from(low), place + 1));
    }
    let high = *bytes.get(place + 1)?;
    if high >= 0x80 {
        return None;
    }
    Some((u64::from(low) - 0x80 + 0x80 * u64::from(high), place + 2))
}

/// Reads the signed number at an offset. Returns it and the offset after it.
// Inlined: called for many instructions.
#[inline(always)]
pub fn signed_at(bytes: &[u8], place: usize) -> Option<(i64, usize)>
    ensures value { IfSome result (λ read. sleb_at bytes.now place ≡ Ok read) }
    ensures small { IfSome result (λ read. unsigned_abs read.0 ≤ 2 ^ 14) }
    ensures moves { IfSome result (λ read. place < read.1) }
    ensures within { IfSome result (λ read. read.1 ≤ length bytes.now) }
{
    let low = *bytes.get(place)?;
    if low < 0x80 {
        return Some((one_signed(low), place + 1));
    }
    let high = *bytes.get(place + 1)?;
    if high >= 0x80 {
        return None;
    }
    Some((two_signed(low, high), place + 2))
}

/// Returns the signed number of one byte.
// Inlined: called for many instructions.
#[inline(always)]
fn one_signed(byte: u8) -> i64
    requires { byte < 128 }
    ensures { result ≡ (pos byte -ℤ pos (if nat_le 64 byte then 128 else 0)) }
{
    if byte < 0x40 {
        i64::from(byte)
    } else {
        i64::from(byte) - 0x80
    }
}

/// Returns the signed number of two bytes.
// Inlined: called for many instructions.
#[inline(always)]
fn two_signed(low: u8, high: u8) -> i64
    requires low { 128 ≤ low }
    requires high { high < 128 }
    ensures { result
        ≡ (pos (low - 128 + 128 * high) -ℤ pos (if nat_le 64 high then 16384 else 0)) }
{
    let number = i64::from(low) - 0x80 + 0x80 * i64::from(high);
    if high < 0x40 { number } else { number - 0x4000 }
}

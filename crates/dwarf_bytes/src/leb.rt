//! LEB128 numbers (DWARF 5, 7.6).

ghost use Rattle.std.specs.Prelude.{slice_index, nat_le, ◌≡◌, ◌≤◌, ◌<◌, ◌*◌, ◌^◌, pos, ◌-ℤ◌};
ghost use Rattle.std.specs.Prelude.{if◌then◌else◌, length, IfOk, MatchResult, Ok, Err};
ghost use Rattle.dwarf_bytes.specs.declared.fault.ReadFault.TheVariants.{Short};
ghost use Rattle.dwarf_bytes.specs.Private.LebPrefixes.{IsLebPrefix, uleb_front, sleb_front};

use crate::fault::ReadFault;

/// The number of bytes before the tenth. Their 63 bits fit in a `u64`.
const LOW_BYTES: usize = 9;

/// The first nine bytes of a LEB128 number, decoded as unsigned.
#[derive(Clone, Copy)]
pub(crate) enum LebPrefix {
    /// A complete number, and the length of its encoding in bytes.
    Whole(u64, usize),
    /// The low 63 bits of a number that continues after nine bytes.
    Continued(u64),
}

/// Decodes up to nine bytes: groups of seven bits, the lowest first.
fn leb_prefix(bytes: &[u8]) -> Result<LebPrefix, ReadFault>
    ensures { IsLebPrefix bytes.now result }
{
    let low = &bytes[..bytes.len().min(LOW_BYTES)];
    let mut value: u64 = 0;
    for (i, byte) in low.iter().enumerate() {
        value += u64::from(*byte & 0x7f) << (7 * i);
        if *byte < 0x80 {
            return Ok(LebPrefix::Whole(value, i + 1));
        }
    }
    if bytes.len() < LOW_BYTES {
        return Err(ReadFault::Short);
    }
    Ok(LebPrefix::Continued(value))
}

/// Returns the tenth byte, which is the last that a number may have.
fn tenth(bytes: &[u8]) -> Result<u8, ReadFault>
    ensures { MatchResult result (λ byte. (9 < length bytes.now) × (byte ≡ slice_index bytes.now 9))
        (λ fault. (fault ≡ Short) × (length bytes.now ≤ 9)) }
{
    if bytes.len() <= LOW_BYTES {
        return Err(ReadFault::Short);
    }
    Ok(bytes[LOW_BYTES])
}

/// Decodes the unsigned number at the start of the bytes. Returns it and the length of its
/// encoding.
// Inlined into other crates: called for each number.
#[inline]
pub(crate) fn uleb_front(bytes: &[u8]) -> Result<(u64, usize), ReadFault>
    ensures value { MatchResult result (λ read. uleb_front bytes.now ≡ Ok read)
        (λ fault. uleb_front bytes.now ≡ Err fault) }
    ensures within { IfOk result (λ read. read.1 ≤ length bytes.now) }
    ensures some { IfOk result (λ read. 0 < read.1) }
{
    match bytes {
        [byte, ..] if *byte < 0x80 => Ok((u64::from(*byte), 1)),
        _ => long_uleb(bytes),
    }
}

/// Decodes an unsigned number of any length.
fn long_uleb(bytes: &[u8]) -> Result<(u64, usize), ReadFault>
    ensures value { MatchResult result (λ read. uleb_front bytes.now ≡ Ok read)
        (λ fault. uleb_front bytes.now ≡ Err fault) }
    ensures within { IfOk result (λ read. read.1 ≤ length bytes.now) }
    ensures some { IfOk result (λ read. 0 < read.1) }
{
    match leb_prefix(bytes)? {
        LebPrefix::Whole(value, len) => Ok((value, len)),
        LebPrefix::Continued(low) => {
            let top = tenth(bytes)?;
            if top > 1 {
                return Err(ReadFault::Leb);
            }
            Ok((low + (u64::from(top) << 63), LOW_BYTES + 1))
        }
    }
}

/// Decodes the signed number at the start of the bytes. Returns it and the length of its encoding.
// Inlined into other crates: called for each number.
#[inline]
pub(crate) fn sleb_front(bytes: &[u8]) -> Result<(i64, usize), ReadFault>
    ensures value { MatchResult result (λ read. sleb_front bytes.now ≡ Ok read)
        (λ fault. sleb_front bytes.now ≡ Err fault) }
    ensures within { IfOk result (λ read. read.1 ≤ length bytes.now) }
    ensures some { IfOk result (λ read. 0 < read.1) }
{
    match bytes {
        [byte, ..] if *byte < 0x80 => Ok((signed_group(*byte), 1)),
        _ => long_sleb(bytes),
    }
}

/// Sign-extends one group of seven bits.
fn signed_group(byte: u8) -> i64
    requires { byte < 128 }
    ensures { result ≡ (pos byte -ℤ pos (if nat_le 64 byte then 128 else 0)) }
{
    if byte < 0x40 {
        i64::from(byte)
    } else {
        i64::from(byte) - 0x80
    }
}

/// Decodes a signed number of any length.
fn long_sleb(bytes: &[u8]) -> Result<(i64, usize), ReadFault>
    ensures value { MatchResult result (λ read. sleb_front bytes.now ≡ Ok read)
        (λ fault. sleb_front bytes.now ≡ Err fault) }
    ensures within { IfOk result (λ read. read.1 ≤ length bytes.now) }
    ensures some { IfOk result (λ read. 0 < read.1) }
{
    match leb_prefix(bytes)? {
        LebPrefix::Whole(value, len) => {
            let negative = bytes[len - 1] % 128 >= 64;
            Ok((signed(value, len, negative), len))
        }
        LebPrefix::Continued(low) => match tenth(bytes)? {
            0x00 => Ok((signed(low, LOW_BYTES, false), LOW_BYTES + 1)),
            0x7f => Ok((signed(low, LOW_BYTES, true), LOW_BYTES + 1)),
            _ => Err(ReadFault::Leb),
        },
    }
}

/// Subtracts 2^(7 × `len`) from the value of `len` groups if the number is negative.
fn signed(value: u64, len: usize, negative: bool) -> i64
    requires small { value < 2 ^ (7 * len) }
    requires few { len ≤ 9 }
    ensures { result ≡ (pos value -ℤ pos (if negative then 2 ^ (7 * len) else 0)) }
{
    let value = i128::from(value);
    if negative {
        (value - (1 << (7 * len))) as i64
    } else {
        value as i64
    }
}

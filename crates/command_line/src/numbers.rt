//! Parses numbers.

ghost use Rattle.std.specs.Prelude.{◌≡◌, ◌<◌, MatchOption, if◌then◌else◌, Some, None, true, false};
ghost use Rattle.std.specs.Char.{is_ascii_hexdigit, digit_value};
ghost use Rattle.command_line.specs.Numbers.{number, are_digits, hex_value};

/// Returns the value of a hexadecimal digit, or `None` if the byte is not one.
fn digit(byte: u8) -> Option<u8>
    ensures { MatchOption result (is_ascii_hexdigit byte ≡ false)
        (λ value. (is_ascii_hexdigit byte ≡ true) × (value ≡ digit_value byte) × (value < 16)) }
{
    match byte {
        b'0'..=b'9' => Some(byte - b'0'),
        b'A'..=b'F' => Some(byte - b'A' + 10),
        b'a'..=b'f' => Some(byte - b'a' + 10),
        _ => None,
    }
}

/// Parses 1 to 16 hexadecimal digits.
fn parse_digits(digits: &[u8]) -> Option<u64>
    ensures { result ≡ (if are_digits digits.now then Some (hex_value digits.now) else None) }
{
    if digits.is_empty() || digits.len() > 16 {
        return None;
    }
    let mut value = 0u64;
    for byte in digits {
        value = value * 16 + u64::from(digit(*byte)?);
    }
    Some(value)
}

/// Parses a number: 1 to 16 hexadecimal digits of either case, with or without a leading `0x`.
/// Allocates no memory.
#[tactic(auto, unfolding(crate::specs::Numbers::number))]
pub fn parse_number(text: &[u8]) -> Option<u64>
    ensures { result ≡ number text.now }
{
    if text.starts_with(b"0x") {
        parse_digits(&text[2..])
    } else {
        parse_digits(text)
    }
}

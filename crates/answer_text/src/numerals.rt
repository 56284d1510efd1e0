//! Formats addresses.

ghost use Rattle.std.specs.Prelude.{◌≡◌, ◌<◌};
ghost use Rattle.std.specs.Char.{digit_char};
ghost use Rattle.answer_text.specs.Numerals.{address_text};

/// Returns the hexadecimal digit of a number below 16.
fn hex_digit(value: u8) -> u8
    requires { value < 16 }
    ensures { result ≡ digit_char value }
{
    if value < 10 {
        b'0' + value
    } else {
        b'a' + (value - 10)
    }
}

/// Formats an address as `0x` and sixteen hexadecimal digits.
pub fn address_text(address: u64) -> [u8; 18]
    ensures { result ≡ address_text address }
{
    let mut text = *b"0x0000000000000000";
    let mut left = address;
    let mut at = 18;
    while at > 2 {
        at -= 1;
        text[at] = hex_digit((left % 16) as u8);
        left /= 16;
    }
    text
}

//! Control characters, which are printed as `?`.

ghost use Rattle.std.specs.Prelude.{◌≡◌, ◌<◌, ◌≤◌, length, not};
ghost use Rattle.std.specs.List.{list_all};
ghost use Rattle.answer_text.specs.Printable.{is_control, printable};

/// The number of bytes that the compiler tests at once.
const BLOCK: usize = 16;

/// The same for a string that is shorter than a block.
const SMALL_BLOCK: usize = 8;

fn is_control(byte: u8) -> bool
    ensures { result ≡ is_control byte }
{
    byte < 32 || byte == 127
}

/// Returns the byte, or `?` for a control character.
pub(crate) fn printable(byte: u8) -> u8
    ensures { result ≡ printable byte }
{
    if is_control(byte) { b'?' } else { byte }
}

/// Returns whether a string has no control characters. The last block overlaps the block before it,
/// because a loop over the rest of the string would take longer than a block.
pub(crate) fn are_printable(text: &[u8]) -> bool
    ensures { result ≡ list_all (λ byte. not (is_control byte)) text.now }
{
    if text.len() < BLOCK {
        return is_short_printable(text);
    }
    let mut at = 0;
    while text.len() - at >= BLOCK {
        if !is_block_printable(&text[at..at + BLOCK]) {
            return false;
        }
        at += BLOCK;
    }
    is_block_printable(&text[text.len() - BLOCK..])
}

/// Returns whether a string that is shorter than a block has no control characters.
fn is_short_printable(text: &[u8]) -> bool
    requires { length text.now < 16 }
    ensures { result ≡ list_all (λ byte. not (is_control byte)) text.now }
{
    if text.len() < SMALL_BLOCK {
        return is_block_printable(text);
    }
    let start = is_block_printable(&text[..SMALL_BLOCK]);
    start & is_block_printable(&text[text.len() - SMALL_BLOCK..])
}

/// Returns whether a block has no control characters.
// Inlined, so that the size of the block is known. The loop looks at each byte, so that the
// compiler can test all of them at once.
#[inline(always)]
fn is_block_printable(block: &[u8]) -> bool
    ensures { result ≡ list_all (λ byte. not (is_control byte)) block.now }
{
    let mut all = true;
    for byte in block {
        all &= !is_control(*byte);
    }
    all
}

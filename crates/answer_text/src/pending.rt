//! Buffered output to a sink.

ghost use Rattle.std.specs.Prelude.{◌≡◌, ℕ, List, [], ◌∷◌, ◌++◌, map, flat_map, OnOk};
ghost use Rattle.std.specs.Prelude.{if◌then◌else◌};
ghost use Rattle.io_streams.specs.Streams.{Writes, failures_after};
ghost use Rattle.answer_text.specs.Pending.{Puts};
ghost use Rattle.answer_text.specs.Printable.{printable, text_or_unknown, borrowed_text};

use crate::printable::{are_printable, printable};
use arrayvec::ArrayVec;
use io_streams::{DeviceFault, Sink};
use std::marker::Model;

/// The capacity of the buffer in bytes.
const CAPACITY: usize = 2048;

/// A buffer of bytes that are not written yet.
#[derive(Drop)]
pub struct Pending {
    bytes: ArrayVec<u8, CAPACITY>,
}

impl Model for Pending {
    ghost use Rattle.std.specs.Prelude.{ℕ, List};

    ghost Value = { List ℕ };

    ghost view = { λ p. p.bytes.items };
}

/// Writes all of a string. A write that accepts no byte is a failure.
fn write_all<W: Sink>(writer: &mut W, text: &[u8]) -> Result<(), DeviceFault>
    ensures bytes { Writes (W.written writer.old) (W.written writer.new) result text.now }
    ensures failures { W.failures writer.new ≡ failures_after (W.failures writer.old) result }
{
    let mut at = 0;
    while at < text.len() {
        let count = writer.write(&text[at..])?;
        if count == 0 {
            return Err(DeviceFault);
        }
        at += count;
    }
    Ok(())
}

impl Pending {
    pub fn new() -> Self
        ensures { result ≡ [] }
    {
        Pending {
            bytes: ArrayVec::new(),
        }
    }

    /// Drops the buffered bytes.
    pub fn clear(&mut self)
        ensures { self.new ≡ [] }
    {
        self.bytes.clear();
    }

    /// Appends a string if it fits. Returns whether it does.
    fn push(&mut self, text: &[u8]) -> bool
        ensures { self.new ≡ (if result then self.old ++ text.now else self.old) }
    {
        self.bytes.try_extend_from_slice(text).is_ok()
    }

    /// Appends a byte if it fits. Returns whether it does.
    fn push_byte(&mut self, byte: u8) -> bool
        ensures { self.new ≡ (if result then self.old ++ byte ∷ [] else self.old) }
    {
        self.bytes.try_push(byte).is_ok()
    }

    /// Writes the buffered bytes.
    pub fn send<W: Sink>(&mut self, writer: &mut W) -> Result<(), DeviceFault>
        ensures bytes { Writes (W.written writer.old) (W.written writer.new) result self.old }
        ensures empty { OnOk result (self.new ≡ []) }
        ensures failures { W.failures writer.new ≡ failures_after (W.failures writer.old) result }
    {
        write_all(writer, self.bytes.as_slice())?;
        self.clear();
        Ok(())
    }

    /// Appends a string to the buffer. If it does not fit, the buffered bytes are written first. A
    /// string that is longer than the buffer is written at once.
    // Inlined, so that a string of known length is copied without a call.
    #[inline]
    pub fn put<W: Sink>(&mut self, text: &[u8], writer: &mut W) -> Result<(), DeviceFault>
        ensures bytes { Puts (W.written writer.old) (W.written writer.new) self.old self.new result
            text.now }
        ensures failures { W.failures writer.new ≡ failures_after (W.failures writer.old) result }
    {
        if self.push(text) {
            return Ok(());
        }
        self.put_after_send(text, writer)
    }

    /// Appends a byte to the buffer. If it does not fit, the buffered bytes are written first.
    // Inlined: called several times for each frame.
    #[inline(always)]
    pub fn put_byte<W: Sink>(&mut self, byte: u8, writer: &mut W) -> Result<(), DeviceFault>
        ensures bytes { Puts (W.written writer.old) (W.written writer.new) self.old self.new result
            (byte ∷ []) }
        ensures failures { W.failures writer.new ≡ failures_after (W.failures writer.old) result }
    {
        if self.push_byte(byte) {
            return Ok(());
        }
        self.put_after_send(&[byte], writer)
    }

    /// Writes the buffered bytes, then appends a string. A string that is longer than the buffer is
    /// written at once.
    fn put_after_send<W: Sink>(&mut self, text: &[u8], writer: &mut W) -> Result<(), DeviceFault>
        ensures bytes { Puts (W.written writer.old) (W.written writer.new) self.old self.new result
            text.now }
        ensures failures { W.failures writer.new ≡ failures_after (W.failures writer.old) result }
    {
        self.send(writer)?;
        if self.push(text) {
            return Ok(());
        }
        write_all(writer, text)
    }

    /// Appends several strings.
    pub fn put_all<W: Sink>(&mut self, texts: &[&[u8]], writer: &mut W) -> Result<(), DeviceFault>
        ensures bytes { Puts (W.written writer.old) (W.written writer.new) self.old self.new result
            (flat_map (λ text. text.now) texts.now) }
        ensures failures { W.failures writer.new ≡ failures_after (W.failures writer.old) result }
    {
        for text in texts {
            self.put(text, writer)?;
        }
        Ok(())
    }

    /// Appends a string byte by byte, with `?` for each control character.
    fn put_bytes<W: Sink>(&mut self, text: &[u8], writer: &mut W) -> Result<(), DeviceFault>
        ensures bytes { Puts (W.written writer.old) (W.written writer.new) self.old self.new result
            (map printable text.now) }
        ensures failures { W.failures writer.new ≡ failures_after (W.failures writer.old) result }
    {
        for byte in text {
            self.put_byte(printable(*byte), writer)?;
        }
        Ok(())
    }

    /// Appends a string with `?` for each control character. A string without any is appended
    /// whole.
    // Inlined: called for each frame.
    #[inline(always)]
    pub fn put_printable<W: Sink>(&mut self, text: &[u8], writer: &mut W) -> Result<(), DeviceFault>
        ensures bytes { Puts (W.written writer.old) (W.written writer.new) self.old self.new result
            (map printable text.now) }
        ensures failures { W.failures writer.new ≡ failures_after (W.failures writer.old) result }
    {
        if are_printable(text) {
            return self.put(text, writer);
        }
        self.put_bytes(text, writer)
    }

    /// Appends a string, or `??` if it is missing or empty.
    // Inlined: called for each frame.
    #[inline(always)]
    pub fn put_or_unknown<W: Sink>(
        &mut self,
        text: Option<&[u8]>,
        writer: &mut W,
    ) -> Result<(), DeviceFault>
        ensures bytes { Puts (W.written writer.old) (W.written writer.new) self.old self.new result
            (text_or_unknown (borrowed_text text.entry)) }
        ensures failures { W.failures writer.new ≡ failures_after (W.failures writer.old) result }
    {
        let Some(text) = text else {
            return self.put(b"??", writer);
        };
        if text.is_empty() {
            return self.put(b"??", writer);
        }
        self.put_printable(text, writer)
    }
}

/// Writes several strings through a buffer, which is written when a string does not fit and at the
/// end.
pub fn write_texts<W: Sink>(texts: &[&[u8]], writer: &mut W) -> Result<(), DeviceFault>
    ensures bytes { Writes (W.written writer.old) (W.written writer.new) result
        (flat_map (λ text. text.now) texts.now) }
    ensures failures { W.failures writer.new ≡ failures_after (W.failures writer.old) result }
{
    let mut pending = Pending::new();
    pending.put_all(texts, writer)?;
    pending.send(writer)
}

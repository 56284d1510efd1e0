//! A reader that returns one line at a time, a writer that counts flushes for it, and a writer that
//! checks that each write is flushed before the next.

ghost use Rattle.std.specs.Prelude.{None, length};

use io_streams::{DeviceFault, Feed, Sink};
use std::cell::Cell;

/// A reader that returns one line at a time and checks whether each earlier line was answered.
#[derive(Drop)]
pub struct Turns<'a> {
    pub input: &'a [u8],
    pub flushes: &'a Cell<u64>,
    pub lines: u64,
    /// Whether a line was read before the reply to the previous line was flushed.
    pub is_early: bool,
}

impl<'a> Feed for Turns<'a> {
    ghost left = { λ _. None };

    ghost failures = { λ _. 0 };

    ghost reads_left = { λ t. length t.input.now };

    fn read(&mut self, buf: &mut [u8]) -> Result<usize, DeviceFault> {
        if self.flushes.get() != self.lines {
            self.is_early = true;
        }
        let input = self.input;
        let line = match input.iter().position(|byte| *byte == b'\n') {
            Some(end) => end + 1,
            None => input.len(),
        };
        let count = line.min(input.len()).min(buf.len());
        buf[..count].copy_from_slice(&input[..count]);
        self.input = &input[count..];
        self.lines = self.lines.saturating_add(1);
        Ok(count)
    }
}

/// A writer that accepts everything and counts flushes.
#[derive(Drop)]
pub struct Bell<'a> {
    pub flushes: &'a Cell<u64>,
}

impl<'a> Sink for Bell<'a> {
    ghost written = { λ _. None };

    ghost failures = { λ _. 0 };

    fn write(&mut self, bytes: &[u8]) -> Result<usize, DeviceFault> {
        Ok(bytes.len())
    }

    fn flush(&mut self) -> Result<(), DeviceFault> {
        self.flushes.set(self.flushes.get().saturating_add(1));
        Ok(())
    }
}

/// A writer that accepts everything and records whether a write came before the previous one was
/// flushed.
#[derive(Drop)]
pub struct FlushCheck {
    pub writes: u64,
    pub is_late: bool,
    is_pending: bool,
}

impl FlushCheck {
    pub fn new() -> FlushCheck {
        FlushCheck {
            writes: 0,
            is_late: false,
            is_pending: false,
        }
    }
}

impl Sink for FlushCheck {
    ghost written = { λ _. None };

    ghost failures = { λ _. 0 };

    fn write(&mut self, bytes: &[u8]) -> Result<usize, DeviceFault> {
        self.writes = self.writes.saturating_add(1);
        self.is_late = self.is_late || self.is_pending;
        self.is_pending = true;
        Ok(bytes.len())
    }

    fn flush(&mut self) -> Result<(), DeviceFault> {
        self.is_pending = false;
        Ok(())
    }
}

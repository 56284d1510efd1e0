//! Devices with fixed memory, whose bytes a contract can name and which fail on request.

ghost use Rattle.std.specs.Prelude.{◌≡◌, ◌≤◌, Some, take, length};

use io_streams::{DeviceFault, Feed, Sink};

/// The maximum capacity of a `Paper` in bytes.
const CAPACITY: usize = 16384;

/// A reader of a slice that returns at most `most` bytes at a time and fails after `until` bytes.
#[derive(Drop)]
pub struct Script<'a> {
    pub input: &'a [u8],
    pub most: usize,
    pub until: usize,
    pub failures: u64,
}

impl<'a> Script<'a> {
    pub fn new(input: &'a [u8], most: usize) -> Script<'a> {
        Script {
            input,
            most,
            until: usize::MAX,
            failures: 0,
        }
    }
}

impl<'a> Feed for Script<'a> {
    ghost left = { λ s. Some s.input.now };

    ghost failures = { λ s. s.failures };

    ghost reads_left = { λ s. length s.input.now };

    fn read(&mut self, buf: &mut [u8]) -> Result<usize, DeviceFault> {
        if self.until == 0 {
            self.failures = self.failures.saturating_add(1);
            return Err(DeviceFault);
        }
        let input = self.input;
        let most = self.most.max(1).min(self.until);
        let count = most.min(input.len()).min(buf.len());
        buf[..count].copy_from_slice(&input[..count]);
        self.input = &input[count..];
        self.until -= count;
        Ok(count)
    }
}

/// A writer that stores up to `capacity` bytes, and fails to flush when `flushes` is 0.
#[derive(Drop)]
pub struct Paper {
    held: [u8; 16384],
    len: usize,
    failures: u64,
    pub capacity: usize,
    pub flushes: u64,
    /// Whether a write beyond `capacity` accepts no byte instead of failing.
    pub is_stuck: bool,
    ghost within: { len ≤ 16384 },
}

impl Paper {
    pub fn new() -> Self {
        Paper {
            held: [0; 16384],
            len: 0,
            failures: 0,
            capacity: usize::MAX,
            flushes: u64::MAX,
            is_stuck: false,
        }
    }

    pub fn text(&self) -> &[u8] {
        &self.held[..self.len]
    }
}

impl Sink for Paper {
    ghost written = { λ p. Some (take p.len p.held) };

    ghost failures = { λ p. p.failures };

    fn write(&mut self, bytes: &[u8]) -> Result<usize, DeviceFault> {
        let count = bytes.len().min(CAPACITY - self.len).min(self.capacity);
        if count == 0 && !bytes.is_empty() {
            self.failures = self.failures.saturating_add(1);
            return if self.is_stuck {
                Ok(0)
            } else {
                Err(DeviceFault)
            };
        }
        self.held[self.len..self.len + count].copy_from_slice(&bytes[..count]);
        self.len += count;
        self.capacity -= count;
        Ok(count)
    }

    fn flush(&mut self) -> Result<(), DeviceFault> {
        if self.flushes == 0 {
            self.failures = self.failures.saturating_add(1);
            return Err(DeviceFault);
        }
        self.flushes -= 1;
        Ok(())
    }
}

//! Readers and writers of std as I/O streams.

ghost use Rattle.std.specs.Prelude.{◌≡◌, ◌^◌, ◌-◌, None};
ghost use Rattle.io_streams.specs.Streams.{DeviceState};

use crate::streams::{DeviceFault, Feed, Sink};
use std::io::{Read, Write};
use std::marker::Model;

/// A `Feed` for a std reader, or a `Sink` for a std writer. It counts failures; contracts cannot
/// name its bytes.
#[derive(Drop)]
pub struct Device<T: Drop> {
    inner: T,
    reads_left: u64,
    failures: u64,
}

impl<T: Drop> Model for Device<T> {
    ghost use Rattle.io_streams.specs.Streams.{DeviceState};

    ghost Value = { DeviceState T };

    ghost view = { λ d. record {
      inner = d.inner;
      reads_left = d.reads_left;
      failures = d.failures;
    } };
}

impl<T: Drop> Device<T> {
    /// Creates a device without failures. It can make 2^64-1 reads of at least one byte.
    pub fn new(inner: T) -> Self
        ensures { result ≡ record {
          inner = inner;
          reads_left = 2 ^ 64 - 1;
          failures = 0;
        } }
    {
        Device {
            inner,
            reads_left: u64::MAX,
            failures: 0,
        }
    }
}

impl<T: Read + Drop> Feed for Device<T> {
    ghost left = { λ _. None };

    ghost failures = { λ d. d.failures };

    ghost reads_left = { λ d. d.reads_left };

    fn read(&mut self, buf: &mut [u8]) -> Result<usize, DeviceFault> {
        if self.reads_left == 0 {
            self.failures = self.failures.saturating_add(1);
            return Err(DeviceFault);
        }
        match self.inner.read(buf) {
            Ok(n) => {
                if n > 0 {
                    self.reads_left -= 1;
                }
                Ok(n)
            }
            Err(_) => {
                self.failures = self.failures.saturating_add(1);
                Err(DeviceFault)
            }
        }
    }
}

impl<T: Write + Drop> Sink for Device<T> {
    ghost written = { λ _. None };

    ghost failures = { λ d. d.failures };

    fn write(&mut self, bytes: &[u8]) -> Result<usize, DeviceFault> {
        match self.inner.write(bytes) {
            Ok(0) => {
                if !bytes.is_empty() {
                    self.failures = self.failures.saturating_add(1);
                }
                Ok(0)
            }
            Ok(n) => Ok(n),
            Err(_) => {
                self.failures = self.failures.saturating_add(1);
                Err(DeviceFault)
            }
        }
    }

    fn flush(&mut self) -> Result<(), DeviceFault> {
        match self.inner.flush() {
            Ok(()) => Ok(()),
            Err(_) => {
                self.failures = self.failures.saturating_add(1);
                Err(DeviceFault)
            }
        }
    }
}

//! The I/O streams of a run, and the source of its objects.

ghost use Rattle.std.specs.Prelude.{◌≡◌, ◌≢◌, ℕ, ◌+◌, ◌-◌, ◌*◌, ◌<◌, ◌≤◌, ◌^◌, List, [], ◌∷◌};
ghost use Rattle.std.specs.Prelude.{◌++◌, length, take, drop, Option, None, Some, Result, IfOk};
ghost use Rattle.std.specs.Prelude.{OnErr, OnOk, IfErr, MatchResult, is_ok};
ghost use Rattle.std.specs.Io.{ReadsAtMost, WritesAtMost};
ghost use Rattle.std.specs.Io.KnownBytes.{ReadConsumes, WriteAppends, Keeps, Appends};
ghost use Rattle.io_streams.specs.Streams.{one_more, failures_after, write_failures, Grows};
ghost use Rattle.io_streams.specs.Streams.{fetched_of, Writes};
ghost use Rattle.io_streams.specs.declared.faults.FetchFault.{FetchFault};

use crate::faults::FetchFault;
use thiserror::Error;

/// The failure of a read, a write or a flush.
#[derive(Clone, Copy, Debug, PartialEq, Eq, Error)]
#[error("the device failed")]
pub struct DeviceFault;

/// A reader of bytes that counts its failures and has a bounded number of reads.
pub trait Feed {
    // The remaining bytes, if a contract can name them.
    ghost left: { Self → Option (List ℕ) };
    // The number of failed reads, up to the greatest u64.
    ghost failures: { Self → ℕ };
    // A number that decreases with each read of at least one byte.
    ghost reads_left: { Self → ℕ };

    fn read(&mut self, buf: &mut [u8]) -> Result<usize, DeviceFault>
        ensures bound { ReadsAtMost result buf.new }
        ensures bytes { ReadConsumes (left self.old) (left self.new) result buf.new }
        ensures failures { failures self.new ≡ failures_after (failures self.old) result }
        ensures reads { IfOk result (λ n. 0 < n → reads_left self.new < reads_left self.old) };
}

/// A writer of bytes that counts its failures.
pub trait Sink {
    // The bytes written so far, if a contract can name them.
    ghost written: { Self → Option (List ℕ) };
    // The number of failed writes and flushes, up to the greatest u64.
    ghost failures: { Self → ℕ };

    fn write(&mut self, bytes: &[u8]) -> Result<usize, DeviceFault>
        ensures bound { WritesAtMost result bytes.now }
        ensures bytes { WriteAppends (written self.old) (written self.new) result bytes.now }
        ensures failures { failures self.new
            ≡ write_failures (failures self.old) bytes.now result };

    fn flush(&mut self) -> Result<(), DeviceFault>
        ensures bytes { Keeps (written self.old) (written self.new) }
        ensures failures { failures self.new ≡ failures_after (failures self.old) result };
}

/// A source of objects, which are fetched by path.
pub trait Objects {
    // The paths that were asked for and the results, in order, if a contract can name them.
    ghost asked: { Self → Option (List (List ℕ × Result (List ℕ) FetchFault)) };

    fn fetch(&mut self, path: &str) -> Result<Vec<u8>, FetchFault>
        ensures asked { Grows (asked self.old) (asked self.new)
            ((path.now, fetched_of result) ∷ []) };
}

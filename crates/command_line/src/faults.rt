//! The reasons for refusing the arguments of a command line.

ghost use Rattle.std.specs.Prelude.{◌≡◌};
ghost use Rattle.command_line.specs.Private.Parsing.{IsFaultOf};
ghost use Rattle.command_line.specs.declared.faults.CliFault.TheVariants.{Memory};

use clap::error::ErrorKind;
use std::alloc::{AllocError, AllocFailed};
use thiserror::Error;

/// The words before an argument that is no address.
pub const BAD_ADDRESS: &str = "bad address";

/// The reason for refusing the arguments of a command line.
#[derive(Debug, Drop, Error)]
pub enum CliFault<'a> {
    /// The parser refuses the arguments, or help or the version was requested. The error contains
    /// the message.
    #[error("{0}")]
    Usage(clap::Error),
    /// The first positional argument that is not an address.
    #[error("{refused} {0}", refused = BAD_ADDRESS)]
    Address(&'a str),
    /// Memory ran out.
    #[error("no memory")]
    Memory,
}

impl<'a> From<clap::Error> for CliFault<'a> {
    ghost from_gives = { IsFaultOf };

    fn from(error: clap::Error) -> CliFault<'a> {
        if error.kind() == ErrorKind::OutOfMemory {
            return CliFault::Memory;
        }
        CliFault::Usage(error)
    }
}

impl<'a> From<AllocError> for CliFault<'a> {
    ghost from_gives = { λ _ fault. fault ≡ Memory };

    fn from(_error: AllocError) -> CliFault<'a> {
        CliFault::Memory
    }
}

impl<'a, T: Drop> From<AllocFailed<T>> for CliFault<'a> {
    ghost from_gives = { λ _ fault. fault ≡ Memory };

    fn from(_error: AllocFailed<T>) -> CliFault<'a> {
        CliFault::Memory
    }
}

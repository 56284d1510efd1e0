//! The reasons why a source returns no bytes, and why a run ends early.

ghost use Rattle.std.specs.Prelude.{◌≡◌};
ghost use Rattle.io_streams.specs.Words.{fetch_word};

use module_map::MapFault;
use thiserror::Error;

/// The reason why a source returns no bytes.
#[derive(Clone, Copy, Debug, PartialEq, Eq, Error)]
#[error("{}", self.word())]
pub enum FetchFault {
    /// The file cannot be opened or read.
    File = 1,
    /// The file is larger than the limit for an object.
    TooLarge = 2,
    /// The file does not fit into memory.
    Memory = 3,
}

impl FetchFault {
    /// Returns the word that follows `refused` in a reply.
    pub fn word(self) -> &'static str
        ensures { result.now ≡ fetch_word self }
    {
        match self {
            FetchFault::File => "file",
            FetchFault::TooLarge => "too-large",
            FetchFault::Memory => "memory",
        }
    }
}

/// The reason why the object of the command line is not loaded.
#[derive(Clone, Copy, Debug, PartialEq, Eq, Error)]
pub enum ExeFault {
    /// The source returns no bytes.
    #[error("{0}")]
    NotFetched(FetchFault),
    /// The bytes were refused.
    #[error("{0}")]
    NotLoaded(MapFault),
}

/// The reason why a run ends early.
#[derive(Clone, Copy, Debug, PartialEq, Eq, Error)]
pub enum RunFault {
    #[error("reading failed")]
    Reading,
    /// A write or a flush failed, or a write accepted no byte.
    #[error("writing failed")]
    Writing,
    /// Memory ran out at the start.
    #[error("no memory")]
    Memory,
    /// The object of the command line was refused.
    #[error("refused {0}")]
    Exe(ExeFault),
}

//! The reasons for refusing to load, move or unload a module, and the extent of a module.

ghost use Rattle.std.specs.Prelude.{◌≡◌};
ghost use Rattle.module_map.specs.Private.Refusals.{refusal_of};
ghost use Rattle.module_map.specs.Words.{map_word};

use dwarf_bytes::{Cause, LoadFault};
use thiserror::Error;

/// The addresses of a module: its first address and its end (exclusive).
#[derive(Clone, Copy, Debug, PartialEq, Eq)]
pub struct Extent {
    pub low: u64,
    pub high: u64,
}

/// The reason why a module is not loaded, moved or unloaded.
#[derive(Clone, Copy, Debug, PartialEq, Eq, Error)]
#[error("{}", self.word())]
pub enum MapFault {
    /// A module with that name is already loaded.
    NameTaken,
    /// No module with that name is loaded.
    NoModule,
    /// 4,096 modules are loaded; no more can be.
    Full,
    /// The object is invalid; this is its first fault.
    #[error("{0}")]
    Object(LoadFault),
    /// The end (exclusive) of the module would exceed 2^64-1.
    Range,
    /// The module would share an address with another one. The number is the index of the lowest
    /// such module in the list.
    Overlap(usize),
    /// Out of memory.
    Memory,
}

impl MapFault {
    /// Returns the first word after `refused` in a reply.
    pub fn word(self) -> &'static str
        ensures { result.now ≡ map_word self }
    {
        match self {
            MapFault::NameTaken => "name-taken",
            MapFault::NoModule => "no-module",
            MapFault::Full => "full",
            MapFault::Object(_) => "object",
            MapFault::Range => "range",
            MapFault::Overlap(_) => "overlap",
            MapFault::Memory => "memory",
        }
    }
}

/// Returns the reason for refusing an object that cannot be decoded.
pub(crate) fn refusal(fault: LoadFault) -> MapFault
    ensures { result ≡ refusal_of fault }
{
    match fault.cause {
        Cause::Memory => MapFault::Memory,
        _ => MapFault::Object(fault),
    }
}

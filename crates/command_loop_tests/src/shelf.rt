//! A source of the sample objects by name.

ghost use Rattle.std.specs.Prelude.{None};

use crate::formats::{both_units, reserved_length, wide_unit};
use dwarf_samples::*;
use io_streams::{FetchFault, Objects};
use std::alloc::{AllocError, Global};

/// A source of the sample objects. Contracts cannot name its requests, since it does not store
/// them: a source that stores all of them must never run out of memory. `Recorder` stores them.
#[derive(Drop)]
pub struct Shelf {
    alloc: Global,
}

impl Shelf {
    pub fn new(alloc: Global) -> Shelf {
        Shelf { alloc }
    }

    /// Returns the bytes of a sample object.
    fn object(&self, path: &str) -> Option<Result<Vec<u8>, AllocError>> {
        let bytes = match path {
            "A" => inlined(),
            "A1" => cut_abbreviations(),
            "A2" => circular_origins(),
            "A3" => many_directories_without_a_format(),
            "A4" => leaf_without_code(),
            "A5" => version_four(),
            "A6" => call_file_outside(),
            "A7" => cut_line_program(),
            "A8" => origin_of_no_entry(),
            "linkage" => with_linkage_name(),
            "control" => with_files(b"a.\0\0a\x01.c\0\0"),
            "slash" => with_files(b"a\0\0/src/\0\0"),
            "dropped main" => dropped_main(),
            "dropped mid" => dropped_mid(),
            "dropped rows" => dropped_sequence(),
            "open rows" => open_dropped_sequence(),
            _ => return None,
        };
        Some(bytes.to_vec(self.alloc))
    }
}

/// Returns the first sample with other bytes for the names of its two files. Each name is followed
/// by a NUL and the number 0.
fn with_files(files: &[u8; 10]) -> [u8; 703] {
    let mut object = inlined();
    object[304..314].copy_from_slice(files);
    object
}

/// Returns the first sample with a linkage name. The abstract origin of both inlined subroutines is
/// the entry at 25, which has the name `mid` and the linkage name `\x04leaf`. Their call line is of
/// form `data2`, without a call file.
fn with_linkage_name() -> [u8; 703] {
    let mut object = inlined();
    object[140..162].copy_from_slice(&[
        0x03, 0x1d, 0x01, 0x31, 0x13, 0x11, 0x01, 0x12, 0x06, 0x59, 0x05, 0x00, 0x00, 0x04, 0x2e,
        0x00, 0x03, 0x08, 0x6e, 0x08, 0x00, 0x00,
    ]);
    object[237] = 0x19;
    object
}

impl Objects for Shelf {
    ghost asked = { λ _. None };

    fn fetch(&mut self, path: &str) -> Result<Vec<u8>, FetchFault> {
        let object = match path {
            "B" => two_sequences().to_vec(self.alloc),
            "empty" => Ok(Vec::new(self.alloc)),
            "cut" => inlined()[0..63].to_vec(self.alloc),
            "wide" => format_of_64_bits().to_vec(self.alloc),
            "wide unit" => wide_unit(self.alloc),
            "both units" => both_units(self.alloc),
            "no length" => reserved_length(self.alloc),
            "large" => return Err(FetchFault::TooLarge),
            "short" => return Err(FetchFault::Memory),
            _ => match self.object(path) {
                Some(object) => object,
                None => return Err(FetchFault::File),
            },
        };
        match object {
            Ok(bytes) => Ok(bytes),
            Err(_) => Err(FetchFault::Memory),
        }
    }
}

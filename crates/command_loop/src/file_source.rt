//! Objects from files.

ghost use Rattle.std.specs.Prelude.{◌≤◌, ◌^◌, IfOk, vec_len, None};

use io_streams::{FetchFault, Objects};
use std::alloc::Global;
use std::fs;
use std::io::Read;
use std::rt::Files;

/// The maximum size of an object in bytes.
const MAX_BYTES: usize = 1 << 30;

/// A source of objects that reads files. Contracts cannot name what it was asked.
///
/// `fetch` fails with `File` if a file cannot be opened or read, and with `TooLarge` if it has more
/// than 2^30 bytes.
#[derive(Drop)]
pub struct FileSource<'a, R: Files> {
    alloc: Global,
    files: &'a R,
}

impl<'a, R: Files> FileSource<'a, R> {
    /// A source that opens paths by `files`, such as the `HostRuntime` of `main`.
    pub fn new(alloc: Global, files: &'a R) -> FileSource<'a, R> {
        FileSource { alloc, files }
    }
}

/// Reads to the end of a file. Fails with `TooLarge` if it has more than `MAX_BYTES`.
fn read_object<F: Read>(alloc: Global, file: &mut F) -> Result<Vec<u8>, FetchFault>
    ensures { IfOk result (λ bytes. vec_len bytes ≤ 2 ^ 30) }
{
    let mut bytes = Vec::new(alloc);
    let mut piece = [0u8; 65536];
    for _ in 0..u64::MAX {
        let Ok(count) = file.read(&mut piece) else {
            return Err(FetchFault::File);
        };
        if count == 0 {
            return Ok(bytes);
        }
        if count > MAX_BYTES - bytes.len() {
            return Err(FetchFault::TooLarge);
        }
        if bytes.extend_from_slice(&piece[..count]).is_err() {
            return Err(FetchFault::Memory);
        }
    }
    Err(FetchFault::TooLarge)
}

impl<'a, R: Files> Objects for FileSource<'a, R> {
    ghost asked = { λ _. None };

    fn fetch(&mut self, path: &str) -> Result<Vec<u8>, FetchFault> {
        match fs::open(self.files, path) {
            Ok(mut file) => read_object(self.alloc, &mut file),
            Err(_) => Err(FetchFault::File),
        }
    }
}

//! A source that records its requests and results.

ghost use Rattle.std.specs.Prelude.{map, Some, string_bytes};
ghost use Rattle.io_streams.specs.Streams.{fetched_of};

use io_streams::{FetchFault, Objects};
use std::alloc::Global;
use std::process::Abort;

/// A requested path and the result of the request.
#[derive(Drop)]
pub struct Request {
    pub path: String,
    pub result: Result<Vec<u8>, FetchFault>,
}

/// Passes each request to another source and records it, with a copy of the result. It stops the
/// test if it cannot allocate memory for them, so it records all of them.
#[derive(Drop)]
pub struct Recorder<'a, A: Abort, O: Objects> {
    rt: &'a A,
    alloc: Global,
    source: O,
    pub requests: Vec<Request>,
}

impl<'a, A: Abort, O: Objects> Recorder<'a, A, O> {
    pub fn new(rt: &'a A, alloc: Global, source: O) -> Recorder<'a, A, O> {
        Recorder {
            rt,
            alloc,
            source,
            requests: Vec::new(alloc),
        }
    }
}

impl<'a, A: Abort, O: Objects> Objects for Recorder<'a, A, O> {
    ghost asked = { λ s.
        Some (map (λ r. (string_bytes r.path, fetched_of r.result)) s.requests.items) };

    fn fetch(&mut self, path: &str) -> Result<Vec<u8>, FetchFault> {
        let answer = self.source.fetch(path);
        let Ok(path) = String::from_str(self.alloc, path) else {
            panic!(self.rt; "no memory");
        };
        let result = match &answer {
            Ok(object) => match object.to_vec(self.alloc) {
                Ok(copy) => Ok(copy),
                Err(_) => panic!(self.rt; "no memory"),
            },
            Err(fault) => Err(*fault),
        };
        let Ok(()) = self.requests.push(Request { path, result }) else {
            panic!(self.rt; "no memory");
        };
        answer
    }
}

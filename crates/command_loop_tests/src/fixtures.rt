//! Runs over devices with fixed memory, and checks of their output.

use crate::checks::{are_equal, expect};
use crate::devices::{Paper, Script};
use crate::recorder::Recorder;
use crate::shelf::Shelf;
use command_loop::run;
use io_streams::{Options, RunFault};
use std::alloc::Global;
use std::process::Abort;
use std::test::*;

/// The first command of most runs, and its reply.
pub const LOAD: &[u8] = b"load a 0x10000 A\n";

pub const LOADED: &[u8] = b"loaded a 0x0000000000011000-0x0000000000012000\n";

/// Returns the options for these letters; `l` means linkage names.
pub fn options(alloc: Global, letters: &[u8]) -> Options {
    let mut options = Options::plain(alloc);
    options.addresses = letters.contains(&b'a');
    options.functions = letters.contains(&b'f');
    options.inlines = letters.contains(&b'i');
    options.pretty = letters.contains(&b'p');
    options.basenames = letters.contains(&b's');
    options.linkage = letters.contains(&b'l');
    options
}

/// Returns the outcome of a run over these devices.
pub fn outcome(
    alloc: Global,
    options: &Options,
    reader: &mut Script<'_>,
    writer: &mut Paper,
) -> Result<(), RunFault> {
    run(alloc, options, reader, writer, &mut Shelf::new(alloc))
}

/// Compares the output for an input that is read in pieces of several sizes, with several caches.
pub fn compare(
    rt: &(impl Abort + AllocGlobal),
    options: &mut Options,
    input: &[u8],
    wanted: &[u8],
) {
    for (most, cache) in [(1, 0), (7, 1), (64, 4), (4096, 1024)] {
        options.cache = cache;
        let mut reader = Script::new(input, most);
        let mut writer = Paper::new();
        let mut source = Recorder::new(rt, rt.alloc(), Shelf::new(rt.alloc()));
        let result = run(rt.alloc(), options, &mut reader, &mut writer, &mut source);
        are_equal(rt, (result, writer.text()), (Ok(()), wanted));
    }
}

/// The letters of the options of a run, its input and its output.
pub type Run<'a> = (&'a [u8], &'a [u8], &'a [u8]);

/// Checks runs that start without a module.
pub fn fresh(rt: &(impl Abort + AllocGlobal), runs: &[Run<'_>]) {
    for (letters, input, wanted) in runs {
        compare(rt, &mut options(rt.alloc(), letters), input, wanted);
    }
}

/// Returns the bytes of both slices.
fn joined(rt: &(impl Abort + AllocGlobal), first: &[u8], second: &[u8]) -> Vec<u8> {
    let mut bytes = Vec::new(rt.alloc());
    for part in [first, second] {
        expect(rt, bytes.extend_from_slice(part).ok(), "out of memory");
    }
    bytes
}

/// Checks runs that start with the first sample object at 0x10000.
pub fn loaded(rt: &(impl Abort + AllocGlobal), runs: &[Run<'_>]) {
    for (letters, input, wanted) in runs {
        let (input, wanted) = (joined(rt, LOAD, input), joined(rt, LOADED, wanted));
        compare(rt, &mut options(rt.alloc(), letters), &input, &wanted);
    }
}

/// Checks runs without a module and with that object, which have the same output. Each has its
/// input and its output.
pub fn refused(rt: &(impl Abort + AllocGlobal), runs: &[(&[u8], &[u8])]) {
    for (input, wanted) in runs {
        fresh(rt, &[(b"", input, wanted)]);
        loaded(rt, &[(b"", input, wanted)]);
    }
}

/// Appends an argument to a command line.
fn put(rt: &(impl Abort + AllocGlobal), line: &mut Vec<String>, word: &str) {
    let word = expect(rt, String::from_str(rt.alloc(), word).ok(), "out of memory");
    expect(rt, line.push(word).ok(), "out of memory");
}

/// Returns a command line: the program's name, followed by these arguments.
pub fn command_line(rt: &(impl Abort + AllocGlobal), words: &[&str]) -> Vec<String> {
    let mut line = Vec::new(rt.alloc());
    put(rt, &mut line, "addr2line_live");
    for word in words {
        put(rt, &mut line, word);
    }
    line
}

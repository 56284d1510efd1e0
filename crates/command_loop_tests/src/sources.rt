//! Runs whose source does not return the object. The replies are the ones without it.

use crate::checks::are_equal;
use crate::devices::{Paper, Script};
use crate::fixtures::*;
use crate::recorder::Recorder;
use crate::shelf::Shelf;
use command_loop::run;
use io_streams::Options;
use std::test::*;

/// A `load` line that breaks no rule asks for its path once, in the order of the lines. Other lines
/// ask for nothing.
#[test]
fn each_load_asks_once(rt: HostRuntime) {
    let alloc = rt.alloc();
    let lines =
        b"load a 0 A\nload b x B\nload b 0\n1004\nlist\nunload a\nmove a 0\nload c 10 none\n";
    let mut source = Recorder::new(&rt, alloc, Shelf::new(alloc));
    let mut writer = Paper::new();
    let options = Options::plain(alloc);
    let result = run(
        alloc,
        &options,
        &mut Script::new(lines, 7),
        &mut writer,
        &mut source,
    );
    are_equal(&rt, result, Ok(()));
    are_equal(&rt, source.requests.len(), 2);
    for (request, wanted) in source.requests.iter().zip(["A", "none"]) {
        are_equal(&rt, request.path.as_str(), wanted);
        are_equal(&rt, request.result.is_ok(), wanted == "A");
    }
}

/// Sources without a file, with a file that is too large, and without memory.
#[test]
fn sources_that_fail(rt: HostRuntime) {
    let runs: [Run<'_>; 3] = [
        // the source has no file
        (
            b"",
            b"load a 0x10000 none\n11004\nmove a 0x20000\n21004\nunload a\n",
            b"refused file\n??:0\nrefused no-module\n??:0\nrefused no-module\n",
        ),
        // the source has too large a file
        (
            b"",
            b"load a 0x10000 large\n11004\nmove a 0x20000\n21004\nunload a\n",
            b"refused too-large\n??:0\nrefused no-module\n??:0\nrefused no-module\n",
        ),
        // the source has no memory
        (
            b"",
            b"load a 0x10000 short\n11004\nmove a 0x20000\n21004\nunload a\n",
            b"refused memory\n??:0\nrefused no-module\n??:0\nrefused no-module\n",
        ),
    ];
    fresh(&rt, &runs);
}

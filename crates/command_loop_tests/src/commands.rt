//! Commands that change the modules, and answers before and after them.

use crate::checks::are_equal;
use crate::devices::{Paper, Script};
use crate::fixtures::*;
use crate::recorder::Recorder;
use crate::shelf::Shelf;
use command_loop::run;
use io_streams::Options;
use std::alloc::{AllocError, Global};
use std::test::*;

#[test]
fn loads_a_module(rt: HostRuntime) {
    fresh(&rt, &[(b"", LOAD, LOADED)]);
}

#[test]
fn a_valid_load_asks_once(rt: HostRuntime) {
    let alloc = rt.alloc();
    let lines: [(&[u8], usize); 7] = [
        (b"load a 0 A\n", 1),
        (b"load a 0 none\n", 1),
        (b"load a 0 A\nload a 0 A\n", 2),
        (b"load a! 0 A\n", 0),
        (b"load a 0x A\n", 0),
        (b"load a 0\n", 0),
        (b"1000\nlist\nunload a\nmove a 0\nx\n", 0),
    ];
    for (input, requests) in lines {
        let mut source = Recorder::new(&rt, alloc, Shelf::new(alloc));
        let mut reader = Script::new(input, 4096);
        let result = run(
            alloc,
            &Options::plain(alloc),
            &mut reader,
            &mut Paper::new(),
            &mut source,
        );
        are_equal(&rt, result, Ok(()));
        are_equal(&rt, source.requests.len(), requests);
    }
}

/// Commands after the first sample object was loaded: options, input and output.
#[test]
fn commands_after_a_load(rt: HostRuntime) {
    let runs: [Run<'_>; 4] = [
        // lists modules by rising address
        (
            b"",
            b"load b 0x11000 A\nlist\n",
            b"loaded b 0x0000000000012000-0x0000000000013000\n\
            module a 0x0000000000011000-0x0000000000012000 0x0000000000010000\n\
            module b 0x0000000000012000-0x0000000000013000 0x0000000000011000\nend\n",
        ),
        // moves over its own old place
        (
            b"",
            b"load b 0x11000 A\nmove a 0x10800\nunload b\nmove a 0x10800\n11804\n",
            b"loaded b 0x0000000000012000-0x0000000000013000\nrefused overlap b\nunloaded b\n\
            moved a 0x0000000000011800-0x0000000000012800\n/src/a.c:11\n",
        ),
        // answers follow a move
        (
            b"",
            b"11004\nmove a 0x20000\n11004\n21004\n",
            b"/src/a.c:11\nmoved a 0x0000000000021000-0x0000000000022000\n??:0\n/src/a.c:11\n",
        ),
        // answers come from the module that is loaded at the time
        (
            b"",
            b"11000\nunload a\nload a 0x10000 B\n11000\n",
            b"/src/a.c:10\nunloaded a\n\
            loaded a 0x0000000000011000-0x0000000000012000\n/src/a.c:12\n",
        ),
    ];
    loaded(&rt, &runs);
}

/// Commands of a run that starts without a module: options, input and output.
#[test]
fn commands_without_modules(rt: HostRuntime) {
    let runs: [Run<'_>; 2] = [
        // loads up to the greatest address
        (
            b"",
            b"load a 0xffffffffffffdfff A\nunload a\nload a 0xffffffffffffe000 A\n",
            b"loaded a 0xffffffffffffefff-0xffffffffffffffff\nunloaded a\nrefused range\n",
        ),
        // no input has no reply
        (b"", b"", b""),
    ];
    fresh(&rt, &runs);
}

/// Appends the addresses of 16 bytes of the first sample object as lines, and their answers.
fn ask_16(
    alloc: Global,
    from: u64,
    input: &mut Vec<u8>,
    wanted: &mut Vec<u8>,
) -> Result<(), AllocError> {
    for offset in 0..16 {
        let line = format!(in alloc; "{:x}\n", from.saturating_add(offset))?;
        input.extend_from_slice(line.as_bytes())?;
        let answer = if offset < 4 {
            b"/src/a.c:10\n"
        } else {
            b"/src/a.c:11\n"
        };
        wanted.extend_from_slice(answer)?;
    }
    Ok(())
}

/// Answers are the same whether or not the cache has them, also after a move.
#[test]
fn cached_answers(rt: HostRuntime) -> Result<(), Fail> {
    let alloc = rt.alloc();
    let mut input = Vec::new(alloc);
    let mut wanted = Vec::new(alloc);
    ask_16(alloc, 0x11000, &mut input, &mut wanted)?;
    ask_16(alloc, 0x11000, &mut input, &mut wanted)?;
    input.extend_from_slice(b"move a 0x20000\n")?;
    wanted.extend_from_slice(b"moved a 0x0000000000021000-0x0000000000022000\n")?;
    ask_16(alloc, 0x21000, &mut input, &mut wanted)?;
    loaded(&rt, &[(b"", &input, &wanted)]);
    Ok(())
}

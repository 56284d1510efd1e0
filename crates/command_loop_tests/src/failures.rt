//! Runs with failing devices or without enough memory.

use crate::checks::are_equal;
use crate::devices::{Paper, Script};
use crate::fixtures::*;
use crate::shelf::Shelf;
use crate::turns::{Bell, FlushCheck, Turns};
use command_loop::run;
use io_streams::{Options, RunFault};
use std::alloc::Global;
use std::cell::Cell;
use std::test::*;

const SCRIPT: &[u8] = b"load a 0x10000 A\n11004\nmove a 0x20000\n21004\nunload a\n";

const REPLIES: [&[u8]; 5] = [
    LOADED,
    b"/src/a.c:11\n",
    b"moved a 0x0000000000021000-0x0000000000022000\n",
    b"/src/a.c:11\n",
    b"unloaded a\n",
];

/// The output if there is no memory for the object.
const WITHOUT_MEMORY: &[u8] = b"refused memory\n??:0\nrefused no-module\n??:0\nrefused no-module\n";

/// Returns whether the output is exactly the first `count` replies.
fn is_first_replies(text: &[u8], count: usize) -> bool {
    let mut rest = text;
    for reply in REPLIES.iter().take(count) {
        match rest.strip_prefix(*reply) {
            Some(after) => rest = after,
            None => return false,
        }
    }
    rest.is_empty()
}

/// Returns the options of these runs: a cache of four answers.
fn small(alloc: Global) -> Options {
    let mut options = Options::plain(alloc);
    options.cache = 4;
    options
}

#[test]
fn nothing_fails(rt: HostRuntime) {
    let alloc = rt.alloc();
    let mut writer = Paper::new();
    let result = outcome(
        alloc,
        &small(alloc),
        &mut Script::new(SCRIPT, 4096),
        &mut writer,
    );
    let is_first = is_first_replies(writer.text(), 5);
    are_equal(&rt, (result, is_first), (Ok(()), true));
}

/// Returns which of its three outcomes a run has if an allocation may fail: all replies, the
/// replies without the object, or none.
fn outcome_without_memory(run: Result<(), RunFault>, text: &[u8]) -> &'static str {
    match run {
        Ok(()) if is_first_replies(text, 5) => "all replies",
        Ok(()) if text == WITHOUT_MEMORY => "without the object",
        Err(RunFault::Memory) if text.is_empty() => "no memory",
        _ => "another",
    }
}

/// The test runner can make any allocation fail; the outcome is printed.
#[test]
fn memory_fails(rt: HostRuntime) -> Result<(), Fail> {
    let alloc = rt.alloc();
    let mut writer = Paper::new();
    let mut reader = Script::new(SCRIPT, 7);
    let result = outcome(alloc, &small(alloc), &mut reader, &mut writer);
    let outcome = outcome_without_memory(result, writer.text());
    are_equal(&rt, outcome == "another", false);
    println!(rt; "outcome: {outcome}")?;
    Ok(())
}

/// The cache is allocated for as many answers as the options request.
#[test]
fn a_cache_of_more_answers_than_memory_has(rt: HostRuntime) {
    let alloc = rt.alloc();
    let mut options = Options::plain(alloc);
    options.cache = usize::MAX;
    let mut writer = Paper::new();
    let mut reader = Script::new(SCRIPT, 4096);
    let result = outcome(alloc, &options, &mut reader, &mut writer);
    are_equal(&rt, result, Err(RunFault::Memory));
    are_equal(&rt, (writer.text(), reader.input), (b"".as_slice(), SCRIPT));
}

#[test]
fn a_write_fails(rt: HostRuntime) {
    let alloc = rt.alloc();
    let options = small(alloc);
    let mut whole = Paper::new();
    let result = outcome(alloc, &options, &mut Script::new(SCRIPT, 4096), &mut whole);
    are_equal(&rt, result, Ok(()));
    for capacity in 0..whole.text().len() {
        for is_stuck in [false, true] {
            let mut writer = Paper::new();
            writer.capacity = capacity;
            writer.is_stuck = is_stuck;
            let result = outcome(alloc, &options, &mut Script::new(SCRIPT, 7), &mut writer);
            let wanted = whole.text().get(..capacity);
            are_equal(
                &rt,
                (result, Some(writer.text())),
                (Err(RunFault::Writing), wanted),
            );
        }
    }
}

#[test]
fn a_flush_fails(rt: HostRuntime) {
    let alloc = rt.alloc();
    for flushes in 0..5 {
        let mut writer = Paper::new();
        writer.flushes = flushes as u64;
        let result = outcome(
            alloc,
            &small(alloc),
            &mut Script::new(SCRIPT, 7),
            &mut writer,
        );
        let is_first = is_first_replies(writer.text(), flushes + 1);
        are_equal(&rt, (result, is_first), (Err(RunFault::Writing), true));
    }
}

/// The number of bytes of the script that are read before each of its replies.
const ENDS: [usize; 5] = [17, 23, 38, 44, 53];

#[test]
fn a_read_fails(rt: HostRuntime) {
    let alloc = rt.alloc();
    for until in 0..=SCRIPT.len() {
        let mut reader = Script::new(SCRIPT, 1);
        reader.until = until;
        let mut writer = Paper::new();
        let result = outcome(alloc, &small(alloc), &mut reader, &mut writer);
        let count = ENDS.iter().filter(|end| **end <= until).count();
        let is_first = is_first_replies(writer.text(), count);
        are_equal(
            &rt,
            (until, result, is_first),
            (until, Err(RunFault::Reading), true),
        );
    }
}

#[test]
fn flushes_each_reply_before_it_reads_on(rt: HostRuntime) {
    let alloc = rt.alloc();
    let flushes = Cell::new(0);
    let mut reader = Turns {
        input: b"load a 0 A\n1004\nx\nlist\n",
        flushes: &flushes,
        lines: 0,
        is_early: false,
    };
    let mut writer = Bell { flushes: &flushes };
    let mut source = Shelf::new(alloc);
    let options = Options::plain(alloc);
    let result = run(alloc, &options, &mut reader, &mut writer, &mut source);
    are_equal(
        &rt,
        (result, flushes.get(), reader.is_early),
        (Ok(()), 4, false),
    );
}

/// Each reply is a single write here. It is flushed before the next one, although all lines come at
/// once.
#[test]
fn flushes_each_reply_to_lines_of_one_piece(rt: HostRuntime) {
    let alloc = rt.alloc();
    let mut reader = Script::new(b"load a 0 A\n1004\nx\n1008\n", 4096);
    let mut writer = FlushCheck::new();
    let mut source = Shelf::new(alloc);
    let options = Options::plain(alloc);
    let result = run(alloc, &options, &mut reader, &mut writer, &mut source);
    are_equal(
        &rt,
        (result, writer.writes, writer.is_late),
        (Ok(()), 4, false),
    );
}

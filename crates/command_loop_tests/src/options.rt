//! Options and refusals of command lines.

use crate::checks::{are_equal, expect};
use crate::fixtures::command_line;
use clap::error::ErrorKind;
use command_loop::{CliFault, options};
use io_streams::Options;
use std::process::Abort;
use std::test::*;

/// Returns the options of arguments that are accepted.
fn taken(rt: &(impl Abort + AllocGlobal), words: &[&str]) -> Options {
    expect(
        rt,
        options(rt.alloc(), &command_line(rt, words)).ok(),
        "the words are refused",
    )
}

/// Checks that the parser refuses the arguments with this kind of fault.
fn is_usage(rt: &(impl Abort + AllocGlobal), words: &[&str], kind: ErrorKind) {
    match options(rt.alloc(), &command_line(rt, words)) {
        Err(CliFault::Usage(error)) => are_equal(rt, error.kind(), kind),
        _ => panic!(rt; "the parser takes the words"),
    }
}

/// Checks which argument is reported as no address.
fn is_no_address(rt: &(impl Abort + AllocGlobal), words: &[&str], wanted: &str) {
    let line = command_line(rt, words);
    let refused = match options(rt.alloc(), &line) {
        Err(CliFault::Address(word)) => Some(word),
        _ => None,
    };
    are_equal(rt, refused, Some(wanted));
}

/// Checks the flags that arguments set: first those of one letter that add to an answer, then
/// those that change how it is written.
fn are_flags(
    rt: &(impl Abort + AllocGlobal),
    words: &[&str],
    added: (bool, bool, bool),
    written: (bool, bool, bool),
) {
    let options = taken(rt, words);
    let actual = (options.addresses, options.functions, options.inlines);
    are_equal(rt, actual, added);
    let actual = (options.pretty, options.basenames, options.linkage);
    are_equal(rt, actual, written);
}

#[test]
fn flags(rt: HostRuntime) {
    let (none, all) = ((false, false, false), (true, true, true));
    are_flags(&rt, &[], none, none);
    are_flags(&rt, &["-afi"], all, none);
    are_flags(
        &rt,
        &["--pretty-print", "--basenames", "--linkage"],
        none,
        all,
    );
    are_flags(&rt, &["-f", "10"], (false, true, false), none);
}

#[test]
fn no_words(rt: HostRuntime) {
    let options = taken(&rt, &[]);
    are_equal(&rt, (options.exe.is_none(), options.words.len()), (true, 0));
    are_equal(&rt, options.cache, 1024);
}

#[test]
fn object_and_addresses(rt: HostRuntime) {
    let options = taken(&rt, &["-e", "A", "-f", "1004", "0x1010"]);
    let exe = expect(&rt, options.exe.as_ref(), "no object");
    let wanted: [u64; 2] = [0x1004, 0x1010];
    are_equal(
        &rt,
        (exe.as_str(), options.words.as_slice()),
        ("A", wanted.as_slice()),
    );
}

/// Checks the capacity of the cache that these arguments give.
fn is_cache(rt: &(impl Abort + AllocGlobal), words: &[&str], wanted: usize) {
    are_equal(rt, taken(rt, words).cache, wanted);
}

#[test]
fn sizes_of_the_cache(rt: HostRuntime) {
    is_cache(&rt, &["--cache", "65536"], 65536);
    is_cache(&rt, &["--cache=0"], 0);
    is_cache(&rt, &["--cache", "+5"], 5);
    is_cache(&rt, &["--cache=-0"], 0);
    is_cache(&rt, &["--cache=00000000000000065536"], 65536);
}

#[test]
fn usage_faults(rt: HostRuntime) {
    let rows: [(&[&str], ErrorKind); 4] = [
        // a size that is too large
        (&["--cache", "65537"], ErrorKind::ValueValidation),
        // an unknown option, and an option that is given twice
        (&["-x"], ErrorKind::UnknownArgument),
        (&["-a", "-a"], ErrorKind::ArgumentConflict),
        // a usage fault comes before a bad address
        (&["zz", "--cache", "65537"], ErrorKind::ValueValidation),
    ];
    for (words, kind) in rows {
        is_usage(&rt, words, kind);
    }
}

#[test]
fn help(rt: HostRuntime) {
    is_usage(&rt, &["-h"], ErrorKind::DisplayHelp);
    is_usage(&rt, &["--help"], ErrorKind::DisplayHelp);
}

#[test]
fn version(rt: HostRuntime) {
    is_usage(&rt, &["-V"], ErrorKind::DisplayVersion);
    is_usage(&rt, &["--version"], ErrorKind::DisplayVersion);
    // a usage fault comes before the version
    is_usage(&rt, &["-x", "-V"], ErrorKind::UnknownArgument);
}

#[test]
fn first_invalid_address(rt: HostRuntime) {
    is_no_address(&rt, &["zz"], "zz");
    is_no_address(&rt, &["1004", "0X10", "zz"], "0X10");
}

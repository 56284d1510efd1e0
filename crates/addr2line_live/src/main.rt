//! A long-running symbolizer: addr2line over ELF-64 objects with DWARF 5. It reads commands and
//! addresses as lines from standard input, and replies to each on standard output before it reads
//! more. Modules are loaded at a base, moved and unloaded while it runs.
#![tactic(auto)]

mod streams;

use std::process::ExitCode;
use std::{env, io};

/// Returns status 0 at the end of input, after the last address of the arguments, or after help; 1
/// after a fault of the run; 2 if the arguments are refused or are not UTF-8. Standard error has
/// the reason.
fn main(rt: HostRuntime) -> ExitCode {
    match words(&rt) {
        Ok(words) => ExitCode::from(streams::serve(&rt, &words)),
        Err(fault) => {
            let _ = report(&rt, &fault);
            ExitCode::from(2)
        }
    }
}

/// Reports on standard error why the arguments cannot be read.
fn report(rt: &HostRuntime, fault: &io::Error) -> io::Result<()> {
    if fault.kind() == io::ErrorKind::OutOfMemory {
        return eprintln!(rt; "addr2line_live: no memory");
    }
    eprintln!(rt; "addr2line_live: {fault}")
}

/// Returns the arguments of the command line, starting with the program's name.
fn words(rt: &HostRuntime) -> io::Result<Vec<String>> {
    let words = env::args(rt)?.collect(rt.alloc())?;
    Ok(words)
}

//! The program over its I/O streams. It parses the arguments, runs, and returns the exit status.
//! Faults are reported on standard error.

use crate::run_loop::run;
use answer_text::write_texts;
use arrayvec::ArrayString;
use clap::Error;
use command_line::{BAD_ADDRESS, CliFault, options};
use io_streams::{DeviceFault, Feed, Objects, RunFault, Sink};
use std::alloc::Global;
use std::fmt::Write;

/// The prefix of each message on standard error.
const NAME: &[u8] = b"addr2line_live: ";

/// The capacity for the message of a run fault. The longest message is the refusal of an object,
/// with at most 73 bytes.
const LONGEST_MESSAGE: usize = 128;

/// Writes a fault to standard error. A failed write is ignored.
fn report<E: Sink>(fault: RunFault, errors: &mut E) {
    let mut message = ArrayString::<LONGEST_MESSAGE>::new();
    let _ = write!(message, "{fault}");
    let _ = write_texts(&[NAME, message.as_bytes(), b"\n"], errors);
    let _ = errors.flush();
}

/// Writes an argument that is no address to standard error. A failed write is ignored.
fn report_address<E: Sink>(word: &str, errors: &mut E) {
    let texts = [NAME, BAD_ADDRESS.as_bytes(), b" ", word.as_bytes(), b"\n"];
    let _ = write_texts(&texts, errors);
    let _ = errors.flush();
}

/// Writes a string and flushes.
fn show<W: Sink>(text: &str, writer: &mut W) -> Result<(), DeviceFault> {
    write_texts(&[text.as_bytes()], writer)?;
    writer.flush()
}

/// Writes help or the version to standard output and returns status 0, or writes the fault of the
/// arguments to standard error and returns status 2.
fn show_usage<W: Sink, E: Sink>(
    alloc: Global,
    error: &Error,
    writer: &mut W,
    errors: &mut E,
) -> u8 {
    let Ok(text) = format!(in alloc; "{error}") else {
        report(RunFault::Memory, errors);
        return 2;
    };
    if error.use_stderr() {
        let _ = show(&text, errors);
        return 2;
    }
    if show(&text, writer).is_err() {
        report(RunFault::Writing, errors);
        return 1;
    }
    0
}

/// Runs the program with the arguments of a command line, which start with the program's name.
/// Returns the exit status: 0 at the end of input, after the last address of the arguments, or
/// after help or the version; 1 after a fault of the run; 2 if the arguments are refused. Standard
/// error has the reason. A failed write there is ignored.
pub fn program<R: Feed, W: Sink, E: Sink, O: Objects>(
    alloc: Global,
    words: &[String],
    reader: &mut R,
    writer: &mut W,
    errors: &mut E,
    source: &mut O,
) -> u8 {
    let options = match options(alloc, words) {
        Ok(options) => options,
        Err(CliFault::Usage(error)) => return show_usage(alloc, &error, writer, errors),
        Err(CliFault::Address(word)) => {
            report_address(word, errors);
            return 2;
        }
        Err(CliFault::Memory) => {
            report(RunFault::Memory, errors);
            return 2;
        }
    };
    match run(alloc, &options, reader, writer, source) {
        Ok(()) => 0,
        Err(fault) => {
            report(fault, errors);
            1
        }
    }
}

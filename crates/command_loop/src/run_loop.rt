//! A run of the command loop.

ghost use Rattle.std.specs.Prelude.{◌≡◌, ◌≢◌, ℕ, ◌≤◌, List, [], ◌++◌, length, Option, OnOk};
ghost use Rattle.std.specs.Prelude.{IsErrOf};
ghost use Rattle.std.specs.Prelude.{IfErr, IfOk};
ghost use Rattle.std.specs.Io.KnownBytes.{Consumes, Keeps};
ghost use Rattle.io_streams.specs.declared.faults.ExeFault.{ExeFault};
ghost use Rattle.command_loop.specs.Lines.{lines, ended_lines};
ghost use Rattle.command_loop.specs.Requests.{requests};
ghost use Rattle.command_loop.specs.Devices.{read_failures_after, write_failures_after};
ghost use Rattle.command_loop.specs.Output.{Answers, Served, Stopped, Refused, exe_of, asks};

use crate::input::serve_input;
use crate::load_exe::begin;
use crate::words::serve_words;
use io_streams::{Feed, Objects, Options, RunFault, Sink};
use module_map::Modules;
use std::alloc::Global;

/// Loads the object of the command line. Then answers the addresses of the command line, or serves
/// the lines of the reader if there are none. Each reply is written and flushed before the next
/// request is handled.
pub fn run<R: Feed, W: Sink, O: Objects>(
    alloc: Global,
    options: &Options,
    reader: &mut R,
    writer: &mut W,
    source: &mut O,
) -> Result<(), RunFault>
    // The replies to all requests were written. The source was asked only for the object of the
    // command line and for the objects of these requests.
    ensures served { OnOk result
        (Served options.now (R.left reader.old) (R.left reader.new) (λ requests.
        Answers options.now (exe_of options.now) requests (O.asked source.old) (O.asked source.new)
        (W.written writer.old) (W.written writer.new))) }
    // After a failed read, the same holds for the lines that were ended.
    ensures reading { IsErrOf result RunFault.Reading → (asks options.now ≡ [])
        × ((read : List ℕ) ×
        Consumes (R.left reader.old) (R.left reader.new) read ×
        Answers options.now (exe_of options.now) (requests (ended_lines read)) (O.asked source.old)
        (O.asked source.new) (W.written writer.old) (W.written writer.new)) }
    // After a failed write, the same holds for the requests before the current one. A prefix of its
    // reply is written.
    ensures writing { IsErrOf result RunFault.Writing →
        Stopped options.now (R.left reader.old) (R.left reader.new) (O.asked source.old)
        (O.asked source.new) (W.written writer.old) (W.written writer.new) }
    // If the cache cannot be allocated, the reader, the writer and the source are not used at all.
    ensures memory { IsErrOf result RunFault.Memory → (reader.new ≡ reader.old)
        × (writer.new ≡ writer.old) × (source.new ≡ source.old) }
    // The reader is not used if there are addresses to answer.
    ensures unread { asks options.now ≢ [] → reader.new ≡ reader.old }
    // Neither the reader nor the writer is used if the object of the command line is refused.
    ensures unused { (why : ExeFault) → IsErrOf result (RunFault.Exe why) →
        (reader.new ≡ reader.old) × (writer.new ≡ writer.old) }
    // If the object of the command line is refused, the source was asked only for its path.
    ensures exe { IfErr result
        (Refused (exe_of options.now) (R.left reader.old) (R.left reader.new) (O.asked source.old)
        (O.asked source.new) (W.written writer.old) (W.written writer.new)) }
    ensures reader_failed { R.failures reader.new
        ≡ read_failures_after (R.failures reader.old) result }
    ensures writer_failed { W.failures writer.new
        ≡ write_failures_after (W.failures writer.old) result }
{
    let Ok(mut modules) = Modules::new(alloc, options.cache) else {
        return Err(RunFault::Memory);
    };
    match begin(&options.exe, &mut modules, source) {
        Err(why) => return Err(RunFault::Exe(why)),
        Ok(()) => {}
    }
    let words: &[u64] = &options.words;
    if words.is_empty() {
        return serve_input(options, modules, reader, writer, source);
    }
    if serve_words(options, words, &mut modules, writer, source).is_err() {
        return Err(RunFault::Writing);
    }
    Ok(())
}

//! Answers the addresses of the command line.

ghost use Rattle.std.specs.Prelude.{◌≡◌, OnOk, OnErr, List, ◌++◌, ◌∷◌, map};
ghost use Rattle.io_streams.specs.Streams.{failures_after};
ghost use Rattle.command_loop.specs.Output.{ask_of, Requests};
ghost use Rattle.command_loop.specs.Private.Progress.{state_of, ServedInOrder, StopsAmong};

use crate::commands::Command;
use crate::request::serve_request;
use answer_text::Pending;
use io_streams::{DeviceFault, Objects, Options, Sink};
use module_map::Modules;

/// Answers addresses in order.
pub fn serve_words<W: Sink, O: Objects>(
    options: &Options,
    words: &[u64],
    modules: &mut Modules,
    writer: &mut W,
    source: &mut O,
) -> Result<(), DeviceFault>
    ensures handled { OnOk result
        (ServedInOrder options.now
        (state_of modules.old.world (O.asked source.old) (W.written writer.old))
        (map ask_of words.now)
        (state_of modules.new.world (O.asked source.new) (W.written writer.new))) }
    ensures halts { OnErr result
        (StopsAmong options.now
        (state_of modules.old.world (O.asked source.old) (W.written writer.old))
        (map ask_of words.now) (O.asked source.new) (W.written writer.new)) }
    ensures failures { W.failures writer.new ≡ failures_after (W.failures writer.old) result }
{
    let mut pending = Pending::new();
    for word in words {
        let request = Ok(Command::Ask(*word));
        serve_request(options, request, modules, &mut pending, writer, source)?;
    }
    Ok(())
}

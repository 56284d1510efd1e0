//! Serves one request: performs it and writes the reply.

ghost use Rattle.std.specs.Prelude.{◌≡◌, ℕ, List, [], ◌∷◌, Option, option_copied, MatchResult, Ok};
ghost use Rattle.io_streams.specs.Streams.{failures_after, Writes};
ghost use Rattle.command_loop.specs.Output.{Exchanges};
ghost use Rattle.command_loop.specs.Commands.{parse_result};
ghost use Rattle.command_loop.specs.Requests.{parse_buffered};
ghost use Rattle.command_loop.specs.Private.Progress.{state_of, ServesRequest, FailsToReply};
ghost use Rattle.command_loop.specs.Private.Outcomes.{Performs};
ghost use Rattle.command_loop.specs.Requests.Request.{Load, Unload, Move};

use crate::commands::{BadLine, Command, parse_line};
use crate::replies::write_reply;
use answer_text::Pending;
use io_streams::{DeviceFault, FetchFault, Objects, Options, Sink};
use module_map::{Asked, Extent, MapFault, Modules};

/// The outcome of a request.
#[derive(Clone, Copy)]
pub enum Done<'a> {
    Unreadable(BadLine),
    NotFetched(FetchFault),
    Refused(MapFault),
    LoadedAt(&'a str, Extent),
    Unloaded(&'a str),
    MovedTo(&'a str, Extent),
    Listed,
    Asked(Asked),
}

/// Fetches an object from the source and loads it.
fn load<'a, O: Objects>(
    name: &'a str,
    base: u64,
    path: &str,
    modules: &mut Modules,
    source: &mut O,
) -> Done<'a>
    ensures { Performs (Ok (Load name.entry.now base path.now)) modules.old.world modules.new.world
        (O.asked source.old) (O.asked source.new) result }
{
    match source.fetch(path) {
        Err(fault) => Done::NotFetched(fault),
        Ok(bytes) => match modules.load(name, base, bytes) {
            Err(fault) => Done::Refused(fault),
            Ok(extent) => Done::LoadedAt(name, extent),
        },
    }
}

fn unload<'a>(name: &'a str, modules: &mut Modules) -> Done<'a>
    ensures { (asked : Exchanges) → Performs (Ok (Unload name.entry.now)) modules.old.world
        modules.new.world asked asked result }
{
    match modules.unload(name) {
        Err(fault) => Done::Refused(fault),
        Ok(()) => Done::Unloaded(name),
    }
}

fn move_to<'a>(name: &'a str, base: u64, modules: &mut Modules) -> Done<'a>
    ensures { (asked : Exchanges) → Performs (Ok (Move name.entry.now base)) modules.old.world
        modules.new.world asked asked result }
{
    match modules.move_to(name, base) {
        Err(fault) => Done::Refused(fault),
        Ok(extent) => Done::MovedTo(name, extent),
    }
}

/// Parses a line. `None` is a line over the limit.
pub fn parse_buffered(line: Option<&[u8]>) -> Result<Command<'_>, BadLine>
    ensures { parse_result result ≡ parse_buffered (option_copied line.entry) }
{
    match line {
        None => Err(BadLine::LongLine),
        Some(line) => parse_line(line),
    }
}

/// Performs a request.
fn act<'a, O: Objects>(
    request: Result<Command<'a>, BadLine>,
    modules: &mut Modules,
    source: &mut O,
) -> Done<'a>
    ensures { Performs (parse_result request.entry) modules.old.world modules.new.world
        (O.asked source.old) (O.asked source.new) result }
{
    let command = match request {
        Err(fault) => return Done::Unreadable(fault),
        Ok(command) => command,
    };
    match command {
        Command::Ask(address) => Done::Asked(modules.ask(address)),
        Command::List => Done::Listed,
        Command::Load(name, base, path) => load(name, base, path, modules, source),
        Command::Unload(name) => unload(name, modules),
        Command::Move(name, base) => move_to(name, base, modules),
    }
}

/// Serves a request: asks the source, changes the modules, then writes and flushes the reply.
/// An answer is written through `pending`, whose old content is dropped. Other replies do not use
/// it.
pub fn serve_request<W: Sink, O: Objects>(
    options: &Options,
    request: Result<Command<'_>, BadLine>,
    modules: &mut Modules,
    pending: &mut Pending,
    writer: &mut W,
    source: &mut O,
) -> Result<(), DeviceFault>
    ensures served { MatchResult result
        (λ _. ServesRequest options.now (parse_result request.entry)
        (state_of modules.old.world (O.asked source.old) (W.written writer.old))
        (state_of modules.new.world (O.asked source.new) (W.written writer.new)))
        (λ _. FailsToReply options.now (parse_result request.entry)
        (state_of modules.old.world (O.asked source.old) (W.written writer.old))
        (state_of modules.new.world (O.asked source.new) (W.written writer.new))) }
    ensures failures { W.failures writer.new ≡ failures_after (W.failures writer.old) result }
{
    let done = act(request, modules, source);
    write_reply(options, modules, &done, pending, writer)?;
    writer.flush()
}

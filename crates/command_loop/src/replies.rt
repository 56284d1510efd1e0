//! Formats and writes replies.

ghost use Rattle.std.specs.Prelude.{◌≡◌, ◌++◌, ◌∷◌, [], List, codes, flat_map, map};
ghost use Rattle.io_streams.specs.Streams.{failures_after, Writes};
ghost use Rattle.answer_text.specs.Pending.{Puts};
ghost use Rattle.module_map.specs.Listing.{Listed, list_item};
ghost use Rattle.command_loop.specs.Private.Outcomes.{reply_of, IsCurrent};
ghost use Rattle.command_loop.specs.Text.{map_words, object_text, refusal_text};
ghost use Rattle.command_loop.specs.Text.{extent_text, unload_text, module_text, list_text, text};
ghost use Rattle.command_loop.specs.Replies.{overlap_name};
ghost use Rattle.module_map.specs.World.{name_at};

use crate::request::Done;
use answer_text::{Pending, address_text, write_answer, write_texts};
use dwarf_bytes::LoadFault;
use io_streams::{DeviceFault, Options, Sink};
use itoa::Buffer;
use module_map::{Extent, Listing, MapFault, Modules};

/// Writes a refusal with one word.
pub fn write_refusal<W: Sink>(word: &str, writer: &mut W) -> Result<(), DeviceFault>
    ensures bytes { Writes (W.written writer.old) (W.written writer.new) result
        (refusal_text word.now) }
    ensures failures { W.failures writer.new ≡ failures_after (W.failures writer.old) result }
{
    let texts: [&[u8]; 3] = [b"refused ", word.as_bytes(), b"\n"];
    write_texts(&texts, writer)
}

/// Writes the refusal of an object: the section of its first fault, the cause, and the offset of
/// the item that has the fault.
pub fn write_object_refusal<W: Sink>(fault: &LoadFault, writer: &mut W) -> Result<(), DeviceFault>
    ensures bytes { Writes (W.written writer.old) (W.written writer.new) result
        (refusal_text (object_text fault.now)) }
    ensures failures { W.failures writer.new ≡ failures_after (W.failures writer.old) result }
{
    let section = fault.section.name().as_bytes();
    let cause = fault.cause.word().as_bytes();
    let mut buffer = Buffer::new();
    let at = buffer.format(fault.at).as_bytes();
    let texts: [&[u8]; 7] = [b"refused object ", section, b" ", cause, b" at ", at, b"\n"];
    write_texts(&texts, writer)
}

/// Returns the name of the module at an index of the list; empty if there is none.
fn name_at<'a>(modules: &'a Modules, index: usize) -> &'a str
    ensures { result.now ≡ name_at modules.now.world.modules index }
{
    match modules.list().nth(index) {
        None => "",
        Some(item) => item.0,
    }
}

/// Writes the refusal of a module that would overlap another one.
fn write_overlap<W: Sink>(name: &str, writer: &mut W) -> Result<(), DeviceFault>
    ensures bytes { Writes (W.written writer.old) (W.written writer.new) result
        (refusal_text (codes "overlap " ++ name.now)) }
    ensures failures { W.failures writer.new ≡ failures_after (W.failures writer.old) result }
{
    let texts: [&[u8]; 3] = [b"refused overlap ", name.as_bytes(), b"\n"];
    write_texts(&texts, writer)
}

/// Writes why the modules are not changed.
fn write_map_refusal<W: Sink>(
    modules: &Modules,
    fault: MapFault,
    writer: &mut W,
) -> Result<(), DeviceFault>
    ensures bytes { Writes (W.written writer.old) (W.written writer.new) result
        (refusal_text (map_words fault (overlap_name modules.now.world fault))) }
    ensures failures { W.failures writer.new ≡ failures_after (W.failures writer.old) result }
{
    match fault {
        MapFault::Object(fault) => write_object_refusal(&fault, writer),
        MapFault::Overlap(index) => write_overlap(name_at(modules, index), writer),
        _ => write_refusal(fault.word(), writer),
    }
}

/// Writes where a module was loaded, or moved to.
fn write_extent<W: Sink>(
    done: &[u8],
    name: &str,
    extent: &Extent,
    writer: &mut W,
) -> Result<(), DeviceFault>
    ensures bytes { Writes (W.written writer.old) (W.written writer.new) result
        (extent_text done.now name.now extent.now.low extent.now.high) }
    ensures failures { W.failures writer.new ≡ failures_after (W.failures writer.old) result }
{
    let low = address_text(extent.low);
    let high = address_text(extent.high);
    let texts: [&[u8]; 7] = [done, name.as_bytes(), b" ", &low, b"-", &high, b"\n"];
    write_texts(&texts, writer)
}

/// Writes that a module was unloaded.
fn write_unloaded<W: Sink>(name: &str, writer: &mut W) -> Result<(), DeviceFault>
    ensures bytes { Writes (W.written writer.old) (W.written writer.new) result
        (unload_text name.now) }
    ensures failures { W.failures writer.new ≡ failures_after (W.failures writer.old) result }
{
    let texts: [&[u8]; 3] = [b"unloaded ", name.as_bytes(), b"\n"];
    write_texts(&texts, writer)
}

/// Appends the line of a module.
fn put_module<W: Sink>(
    name: &str,
    extent: &Extent,
    base: u64,
    pending: &mut Pending,
    writer: &mut W,
) -> Result<(), DeviceFault>
    ensures bytes { Puts (W.written writer.old) (W.written writer.new) pending.old pending.new
        result
        (module_text (record {
          name = name.now;
          low = extent.now.low;
          high = extent.now.high;
          base = base;
        })) }
    ensures failures { W.failures writer.new ≡ failures_after (W.failures writer.old) result }
{
    let low = address_text(extent.low);
    let high = address_text(extent.high);
    let base = address_text(base);
    let texts: [&[u8]; 9] = [
        b"module ",
        name.as_bytes(),
        b" ",
        &low,
        b"-",
        &high,
        b" ",
        &base,
        b"\n",
    ];
    pending.put_all(&texts, writer)
}

/// Appends the lines of modules.
fn put_modules<W: Sink>(
    modules: Listing<'_>,
    pending: &mut Pending,
    writer: &mut W,
) -> Result<(), DeviceFault>
    ensures bytes { Puts (W.written writer.old) (W.written writer.new) pending.old pending.new
        result (flat_map module_text modules.entry) }
    ensures failures { W.failures writer.new ≡ failures_after (W.failures writer.old) result }
{
    for item in modules {
        put_module(item.0, &item.1, item.2, pending, writer)?;
    }
    Ok(())
}

/// Writes the list of modules and the line that ends it.
fn write_list<W: Sink>(modules: &Modules, writer: &mut W) -> Result<(), DeviceFault>
    ensures bytes { Writes (W.written writer.old) (W.written writer.new) result
        (list_text (map list_item modules.now.world.modules)) }
    ensures failures { W.failures writer.new ≡ failures_after (W.failures writer.old) result }
{
    let mut pending = Pending::new();
    put_modules(modules.list(), &mut pending, writer)?;
    pending.put(b"end\n", writer)?;
    pending.send(writer)
}

/// Writes the reply for the outcome of a request. An answer is written through `pending`, whose old
/// content is dropped.
#[tactic(auto, unfolding(crate::specs::Text::text))]
pub fn write_reply<W: Sink>(
    options: &Options,
    modules: &Modules,
    done: &Done<'_>,
    pending: &mut Pending,
    writer: &mut W,
) -> Result<(), DeviceFault>
    requires { IsCurrent modules.now.world done.now }
    ensures bytes { Writes (W.written writer.old) (W.written writer.new) result
        (text options.now (reply_of modules.now.world done.now)) }
    ensures failures { W.failures writer.new ≡ failures_after (W.failures writer.old) result }
{
    match done {
        Done::Unreadable(fault) => write_refusal(fault.word(), writer),
        Done::NotFetched(fault) => write_refusal(fault.word(), writer),
        Done::Refused(fault) => write_map_refusal(modules, *fault, writer),
        Done::LoadedAt(name, extent) => write_extent(b"loaded ", name, extent, writer),
        Done::Unloaded(name) => write_unloaded(name, writer),
        Done::MovedTo(name, extent) => write_extent(b"moved ", name, extent, writer),
        Done::Listed => write_list(modules, writer),
        Done::Asked(asked) => write_answer(options, &modules.answer(*asked), pending, writer),
    }
}

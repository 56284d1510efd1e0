//! Formats and writes answers.

ghost use Rattle.std.specs.Prelude.{◌≡◌, ◌++◌, ◌∷◌, [], List, IfErr, flat_map};
ghost use Rattle.io_streams.specs.Streams.{Writes, failures_after};
ghost use Rattle.answer_text.specs.Pending.{Puts};
ghost use Rattle.answer_text.specs.Text.{after_address, nothing_text, later_text, frames_text};
ghost use Rattle.answer_text.specs.Text.{heading_text, answer_text};

use crate::frame_text::{put_frame, put_later, put_place};
use crate::numerals::address_text;
use crate::pending::Pending;
use addr_table::Frames;
use io_streams::{DeviceFault, Options, RunFault, Sink};
use module_map::Answer;

fn after_address(options: &Options) -> &'static [u8]
    ensures { result.now ≡ after_address options.now }
{
    if options.pretty { b": " } else { b"\n" }
}

/// Returns the output for an address without frames.
fn nothing_text(options: &Options) -> &'static [u8]
    ensures { result.now ≡ nothing_text options.now }
{
    if !options.functions {
        return b"??:0\n";
    }
    if options.pretty {
        b"?? ??:0\n"
    } else {
        b"??\n??:0\n"
    }
}

/// Appends the frames after the innermost one.
fn put_rest<W: Sink>(
    options: &Options,
    frames: Frames<'_>,
    pending: &mut Pending,
    writer: &mut W,
) -> Result<(), DeviceFault>
    ensures bytes { Puts (W.written writer.old) (W.written writer.new) pending.old pending.new
        result (flat_map (later_text options.now) frames.entry) }
    ensures failures { W.failures writer.new ≡ failures_after (W.failures writer.old) result }
{
    for frame in frames {
        put_later(options, &frame, pending, writer)?;
    }
    Ok(())
}

/// Appends frames: only the innermost one, or all of them.
fn put_frames<W: Sink>(
    options: &Options,
    mut frames: Frames<'_>,
    pending: &mut Pending,
    writer: &mut W,
) -> Result<(), DeviceFault>
    ensures bytes { Puts (W.written writer.old) (W.written writer.new) pending.old pending.new
        result (frames_text options.now frames.entry) }
    ensures failures { W.failures writer.new ≡ failures_after (W.failures writer.old) result }
{
    let Some(frame) = frames.next() else {
        return pending.put(nothing_text(options), writer);
    };
    put_frame(options, &frame, pending, writer)?;
    if !options.inlines {
        return Ok(());
    }
    put_rest(options, frames, pending, writer)
}

/// Appends the address if addresses are requested.
fn put_heading<W: Sink>(
    options: &Options,
    address: u64,
    pending: &mut Pending,
    writer: &mut W,
) -> Result<(), DeviceFault>
    ensures bytes { Puts (W.written writer.old) (W.written writer.new) pending.old pending.new
        result (heading_text options.now address) }
    ensures failures { W.failures writer.new ≡ failures_after (W.failures writer.old) result }
{
    if !options.addresses {
        return Ok(());
    }
    let address = address_text(address);
    let texts: [&[u8]; 2] = [&address, after_address(options)];
    pending.put_all(&texts, writer)
}

/// Appends an answer.
#[tactic(auto, unfolding(crate::specs::Text::answer_text))]
fn put_answer<W: Sink>(
    options: &Options,
    answer: &Answer<'_>,
    pending: &mut Pending,
    writer: &mut W,
) -> Result<(), DeviceFault>
    ensures bytes { Puts (W.written writer.old) (W.written writer.new) pending.old pending.new
        result (answer_text options.now answer.now) }
    ensures failures { W.failures writer.new ≡ failures_after (W.failures writer.old) result }
{
    put_heading(options, answer.address(), pending, writer)?;
    if !options.functions && !options.inlines {
        let site = answer.site();
        return put_place(options, site.path, site.line, pending, writer);
    }
    put_frames(options, answer.frames(), pending, writer)
}

/// Writes an answer through a buffer, whose old content is dropped. A caller with many answers
/// passes the same buffer for all of them.
pub fn write_answer<W: Sink>(
    options: &Options,
    answer: &Answer<'_>,
    pending: &mut Pending,
    writer: &mut W,
) -> Result<(), DeviceFault>
    ensures bytes { Writes (W.written writer.old) (W.written writer.new) result
        (answer_text options.now answer.now) }
    ensures failures { W.failures writer.new ≡ failures_after (W.failures writer.old) result }
{
    pending.clear();
    put_answer(options, answer, pending, writer)?;
    pending.send(writer)
}

/// Writes an answer, which ends with a line feed, without flushing. Allocates no memory. The only
/// fault is `RunFault::Writing`; a prefix of the answer is written then.
pub fn print<W: Sink>(
    options: &Options,
    answer: &Answer<'_>,
    writer: &mut W,
) -> Result<(), RunFault>
    ensures bytes { Writes (W.written writer.old) (W.written writer.new) result
        (answer_text options.now answer.now) }
    ensures fault { IfErr result (λ fault. fault ≡ RunFault.Writing) }
    ensures failures { W.failures writer.new ≡ failures_after (W.failures writer.old) result }
{
    match write_answer(options, answer, &mut Pending::new(), writer) {
        Ok(()) => Ok(()),
        Err(_) => Err(RunFault::Writing),
    }
}

//! Formats frames.

ghost use Rattle.std.specs.Prelude.{◌≡◌, ◌++◌, ◌∷◌, [], List, decimal, option_map, true};
ghost use Rattle.std.specs.Prelude.{MatchOption};
ghost use Rattle.std.specs.List.{join_with_byte};
ghost use Rattle.io_streams.specs.Streams.{failures_after};
ghost use Rattle.answer_text.specs.Pending.{Puts};
ghost use Rattle.answer_text.specs.Printable.{text_or_unknown};
ghost use Rattle.answer_text.specs.Printable.{borrowed_text};
ghost use Rattle.answer_text.specs.Text.{name_of, file_of, after_name, before_later, name_text};
ghost use Rattle.answer_text.specs.Text.{place_text, frame_text, later_text};

use crate::paths::{put_base_name, put_path};
use crate::pending::Pending;
use addr_table::{Frame, Path};
use io_streams::{DeviceFault, Options, Sink};
use itoa::Buffer;

/// Returns the name to print: the linkage name if it is requested and present, else the name.
// Inlined: called for each frame.
#[inline(always)]
fn printed_name<'a>(options: &Options, frame: &Frame<'a>) -> Option<&'a [u8]>
    ensures { borrowed_text result ≡ name_of options.now frame.now }
{
    if !options.linkage {
        return frame.name();
    }
    match frame.linkage() {
        Some(name) => Some(name),
        None => frame.name(),
    }
}

/// Appends the separator after a name.
// Inlined: called for each frame.
#[inline(always)]
fn put_after_name<W: Sink>(
    options: &Options,
    pending: &mut Pending,
    writer: &mut W,
) -> Result<(), DeviceFault>
    ensures bytes { Puts (W.written writer.old) (W.written writer.new) pending.old pending.new
        result (after_name options.now) }
    ensures failures { W.failures writer.new ≡ failures_after (W.failures writer.old) result }
{
    if options.pretty {
        return pending.put(b" at ", writer);
    }
    pending.put_byte(b'\n', writer)
}

/// Appends the words before a frame that is not the innermost one.
fn put_before_later<W: Sink>(
    options: &Options,
    pending: &mut Pending,
    writer: &mut W,
) -> Result<(), DeviceFault>
    ensures bytes { Puts (W.written writer.old) (W.written writer.new) pending.old pending.new
        result (before_later options.now) }
    ensures failures { W.failures writer.new ≡ failures_after (W.failures writer.old) result }
{
    if options.pretty {
        return pending.put(b" (inlined by) ", writer);
    }
    Ok(())
}

/// Appends the name of a frame if names are requested.
// Inlined: called for each frame.
#[inline(always)]
fn put_name<W: Sink>(
    options: &Options,
    frame: &Frame<'_>,
    pending: &mut Pending,
    writer: &mut W,
) -> Result<(), DeviceFault>
    ensures bytes { Puts (W.written writer.old) (W.written writer.new) pending.old pending.new
        result (name_text options.now frame.now) }
    ensures failures { W.failures writer.new ≡ failures_after (W.failures writer.old) result }
{
    if !options.functions {
        return Ok(());
    }
    pending.put_or_unknown(printed_name(options, frame), writer)?;
    put_after_name(options, pending, writer)
}

/// Appends a path, or its base name if requested; `??` if it is missing or empty.
// Inlined: called for each frame.
#[inline(always)]
fn put_file<W: Sink>(
    options: &Options,
    path: Option<Path<'_>>,
    pending: &mut Pending,
    writer: &mut W,
) -> Result<(), DeviceFault>
    ensures bytes { Puts (W.written writer.old) (W.written writer.new) pending.old pending.new
        result (text_or_unknown (file_of options.now (option_map (join_with_byte 47) path.entry))) }
    ensures failures { W.failures writer.new ≡ failures_after (W.failures writer.old) result }
{
    let Some(path) = path else {
        return pending.put(b"??", writer);
    };
    if options.basenames {
        put_base_name(path, pending, writer)
    } else {
        put_path(path, pending, writer)
    }
}

/// Appends a colon, a line number and a line feed.
// Inlined: called for each frame.
#[inline(always)]
fn put_line<W: Sink>(line: u64, pending: &mut Pending, writer: &mut W) -> Result<(), DeviceFault>
    ensures bytes { Puts (W.written writer.old) (W.written writer.new) pending.old pending.new
        result (58 ∷ decimal line ++ 10 ∷ []) }
    ensures failures { W.failures writer.new ≡ failures_after (W.failures writer.old) result }
{
    let mut buffer = Buffer::new();
    pending.put_byte(b':', writer)?;
    pending.put(buffer.format(line).as_bytes(), writer)?;
    pending.put_byte(b'\n', writer)
}

/// Appends `FILE:LINE` and a line feed.
// Inlined: called for each frame.
#[inline(always)]
pub fn put_place<W: Sink>(
    options: &Options,
    path: Option<Path<'_>>,
    line: u64,
    pending: &mut Pending,
    writer: &mut W,
) -> Result<(), DeviceFault>
    ensures bytes { Puts (W.written writer.old) (W.written writer.new) pending.old pending.new
        result (place_text options.now (option_map (join_with_byte 47) path.entry) line) }
    ensures failures { W.failures writer.new ≡ failures_after (W.failures writer.old) result }
{
    put_file(options, path, pending, writer)?;
    put_line(line, pending, writer)
}

/// Appends a frame.
// Inlined: called for each frame.
#[inline(always)]
pub fn put_frame<W: Sink>(
    options: &Options,
    frame: &Frame<'_>,
    pending: &mut Pending,
    writer: &mut W,
) -> Result<(), DeviceFault>
    ensures bytes { Puts (W.written writer.old) (W.written writer.new) pending.old pending.new
        result (frame_text options.now frame.now) }
    ensures failures { W.failures writer.new ≡ failures_after (W.failures writer.old) result }
{
    put_name(options, frame, pending, writer)?;
    put_place(options, frame.path(), frame.line(), pending, writer)
}

/// Appends a frame that is not the innermost one.
pub fn put_later<W: Sink>(
    options: &Options,
    frame: &Frame<'_>,
    pending: &mut Pending,
    writer: &mut W,
) -> Result<(), DeviceFault>
    ensures bytes { Puts (W.written writer.old) (W.written writer.new) pending.old pending.new
        result (later_text options.now frame.now) }
    ensures failures { W.failures writer.new ≡ failures_after (W.failures writer.old) result }
{
    put_before_later(options, pending, writer)?;
    put_frame(options, frame, pending, writer)
}

//! Formats paths.

ghost use Rattle.std.specs.Prelude.{◌≡◌, List, ◌++◌, ◌∷◌, [], Some, flat_map, map};
ghost use Rattle.std.specs.List.{after_last, join_with_byte};
ghost use Rattle.io_streams.specs.Streams.{failures_after};
ghost use Rattle.answer_text.specs.Pending.{Puts};
ghost use Rattle.answer_text.specs.Printable.{text_or_unknown};
ghost use Rattle.answer_text.specs.Text.{base_name};
ghost use Rattle.answer_text.specs.Private.Paths.{last_or, after_slash};

use crate::pending::Pending;
use addr_table::Path;
use bstr::ByteSlice;
use io_streams::{DeviceFault, Sink};

/// Returns the part of a path after its last slash, or all of it if it has no slash.
fn base_name(path: &[u8]) -> &[u8]
    ensures { result.now ≡ base_name path.now }
{
    match path.rfind_byte(b'/') {
        None => path,
        Some(slash) => &path[slash + 1..],
    }
}

/// Returns the last part of a path; empty if the path has no parts.
fn last_part<'a>(path: Path<'a>) -> &'a [u8]
    ensures { result.now ≡ last_or [] path.entry }
{
    let mut last: &'a [u8] = b"";
    for part in path {
        last = part;
    }
    last
}

/// Appends the part of a path after its last slash, or `??` if that is empty.
pub fn put_base_name<W: Sink>(
    path: Path<'_>,
    pending: &mut Pending,
    writer: &mut W,
) -> Result<(), DeviceFault>
    ensures bytes { Puts (W.written writer.old) (W.written writer.new) pending.old pending.new
        result
        (text_or_unknown (Some (base_name (join_with_byte 47 path.entry)))) }
    ensures failures { W.failures writer.new ≡ failures_after (W.failures writer.old) result }
{
    pending.put_or_unknown(Some(base_name(last_part(path))), writer)
}

/// Appends a slash and a part.
// Inlined: called for each frame.
#[inline(always)]
fn put_after_slash<W: Sink>(
    part: &[u8],
    pending: &mut Pending,
    writer: &mut W,
) -> Result<(), DeviceFault>
    ensures bytes { Puts (W.written writer.old) (W.written writer.new) pending.old pending.new
        result (after_slash part.now) }
    ensures failures { W.failures writer.new ≡ failures_after (W.failures writer.old) result }
{
    pending.put_byte(b'/', writer)?;
    pending.put_printable(part, writer)
}

/// Appends the remaining parts of a path, each after a slash.
// Inlined: called for each frame.
#[inline(always)]
fn put_rest<W: Sink>(
    path: Path<'_>,
    pending: &mut Pending,
    writer: &mut W,
) -> Result<(), DeviceFault>
    ensures bytes { Puts (W.written writer.old) (W.written writer.new) pending.old pending.new
        result (flat_map after_slash path.entry) }
    ensures failures { W.failures writer.new ≡ failures_after (W.failures writer.old) result }
{
    for part in path {
        put_after_slash(part, pending, writer)?;
    }
    Ok(())
}

/// Appends the rest of a path whose first part is empty, or `??` if there is no rest.
fn put_after_empty_part<W: Sink>(
    mut path: Path<'_>,
    pending: &mut Pending,
    writer: &mut W,
) -> Result<(), DeviceFault>
    ensures bytes { Puts (W.written writer.old) (W.written writer.new) pending.old pending.new
        result
        (text_or_unknown (Some (join_with_byte 47 ([] ∷ path.entry)))) }
    ensures failures { W.failures writer.new ≡ failures_after (W.failures writer.old) result }
{
    let Some(part) = path.next() else {
        return pending.put(b"??", writer);
    };
    put_after_slash(part, pending, writer)?;
    put_rest(path, pending, writer)
}

/// Appends a path: its parts joined by slashes, or `??` if that is empty.
// Inlined: called for each frame.
#[inline(always)]
pub fn put_path<W: Sink>(
    mut path: Path<'_>,
    pending: &mut Pending,
    writer: &mut W,
) -> Result<(), DeviceFault>
    ensures bytes { Puts (W.written writer.old) (W.written writer.new) pending.old pending.new
        result
        (text_or_unknown (Some (join_with_byte 47 path.entry))) }
    ensures failures { W.failures writer.new ≡ failures_after (W.failures writer.old) result }
{
    let Some(part) = path.next() else {
        return pending.put(b"??", writer);
    };
    if part.is_empty() {
        return put_after_empty_part(path, pending, writer);
    }
    pending.put_printable(part, writer)?;
    put_rest(path, pending, writer)
}

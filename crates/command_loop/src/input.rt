//! Reads lines, and serves each one before more is read.

ghost use Rattle.std.specs.Prelude.{◌≡◌, ℕ, ◌≤◌, List, [], ◌∷◌, ◌++◌, length, Option, OnOk, OnErr};
ghost use Rattle.io_streams.specs.Streams.{failures_after};
ghost use Rattle.command_loop.specs.Devices.{read_failures_after, write_failures_after};
ghost use Rattle.command_loop.specs.Lines.{longer};
ghost use Rattle.command_loop.specs.Private.Progress.{state_of, ReadsOn, StopsWithin, ReadsLines};

use crate::commands::parse_line;
use crate::line_buffer::LineBuffer;
use crate::prefetch::Prefetch;
use crate::request::{parse_buffered, serve_request};
use answer_text::Pending;
use bstr::ByteSlice;
use io_streams::{DeviceFault, Feed, Objects, Options, RunFault, Sink};
use module_map::Modules;

/// The modules, the current line, and a buffer that all answers use.
#[derive(Drop)]
pub struct Session {
    modules: Modules,
    line: LineBuffer,
    pending: Pending,
    prefetch: Prefetch,
}

impl Session {
    /// Serves the line that ends here, if it is nonempty.
    fn end_line<W: Sink, O: Objects>(
        &mut self,
        options: &Options,
        writer: &mut W,
        source: &mut O,
    ) -> Result<(), DeviceFault>
        ensures goes_on { OnOk result (ReadsOn options.now (10 ∷ [])
            (state_of self.old.modules.world (O.asked source.old) (W.written writer.old))
            self.old.line
            (state_of self.new.modules.world (O.asked source.new) (W.written writer.new))
            self.new.line) }
        ensures breaks { OnErr result (StopsWithin options.now (10 ∷ [])
            (state_of self.old.modules.world (O.asked source.old) (W.written writer.old))
            self.old.line (O.asked source.new) (W.written writer.new)) }
        ensures failures { W.failures writer.new ≡ failures_after (W.failures writer.old) result }
    {
        if self.line.is_empty() {
            return Ok(());
        }
        let request = parse_buffered(self.line.text());
        serve_request(
            options,
            request,
            &mut self.modules,
            &mut self.pending,
            writer,
            source,
        )?;
        self.line.clear();
        Ok(())
    }

    /// Serves the line that ends here, if it is nonempty. `end` is the last part of the line.
    fn end_line_with<W: Sink, O: Objects>(
        &mut self,
        options: &Options,
        end: &[u8],
        writer: &mut W,
        source: &mut O,
    ) -> Result<(), DeviceFault>
        ensures goes_on { OnOk result (ReadsOn options.now (10 ∷ [])
            (state_of self.old.modules.world (O.asked source.old) (W.written writer.old))
            (longer self.old.line end.now)
            (state_of self.new.modules.world (O.asked source.new) (W.written writer.new))
            self.new.line) }
        ensures breaks { OnErr result (StopsWithin options.now (10 ∷ [])
            (state_of self.old.modules.world (O.asked source.old) (W.written writer.old))
            (longer self.old.line end.now) (O.asked source.new) (W.written writer.new)) }
        ensures failures { W.failures writer.new ≡ failures_after (W.failures writer.old) result }
    {
        if end.is_empty() || !self.line.is_empty() {
            self.line.extend(end);
            return self.end_line(options, writer, source);
        }
        // The line is in one piece, so it is not copied.
        let request = parse_line(end);
        serve_request(
            options,
            request,
            &mut self.modules,
            &mut self.pending,
            writer,
            source,
        )?;
        Ok(())
    }

    /// Processes a piece of input, and serves each line that ends in it.
    fn take_piece<W: Sink, O: Objects>(
        &mut self,
        options: &Options,
        piece: &[u8],
        writer: &mut W,
        source: &mut O,
    ) -> Result<(), DeviceFault>
        ensures goes_on { OnOk result (ReadsOn options.now piece.now
            (state_of self.old.modules.world (O.asked source.old) (W.written writer.old))
            self.old.line
            (state_of self.new.modules.world (O.asked source.new) (W.written writer.new))
            self.new.line) }
        ensures breaks { OnErr result (StopsWithin options.now piece.now
            (state_of self.old.modules.world (O.asked source.old) (W.written writer.old))
            self.old.line (O.asked source.new) (W.written writer.new)) }
        ensures failures { W.failures writer.new ≡ failures_after (W.failures writer.old) result }
    {
        let mut rest = piece;
        // Proofs name the loop by its label.
        'lines: while let Some(end) = rest.find_byte(b'\n') {
            self.prefetch.before_line(options, &self.modules, rest);
            self.end_line_with(options, &rest[..end], writer, source)?;
            rest = &rest[end + 1..];
        }
        self.line.extend(rest);
        Ok(())
    }
}

/// Serves the lines of a reader in order. Each reply is written and flushed before more is read.
/// Input is read in pieces of at most 4,096 bytes.
pub fn serve_input<R: Feed, W: Sink, O: Objects>(
    options: &Options,
    modules: Modules,
    reader: &mut R,
    writer: &mut W,
    source: &mut O,
) -> Result<(), RunFault>
    ensures reads { ReadsLines options.now
        (state_of modules.world (O.asked source.old) (W.written writer.old))
        (R.left reader.old) (R.left reader.new) (O.asked source.new) (W.written writer.new) result }
    ensures reader_failed { R.failures reader.new
        ≡ read_failures_after (R.failures reader.old) result }
    ensures writer_failed { W.failures writer.new
        ≡ write_failures_after (W.failures writer.old) result }
{
    let mut session = Session {
        modules,
        line: LineBuffer::new(),
        pending: Pending::new(),
        prefetch: Prefetch::new(),
    };
    let mut piece = [0u8; 4096];
    // Proofs name the loop by its label.
    'pieces: loop {
        let Ok(count) = reader.read(&mut piece) else {
            return Err(RunFault::Reading);
        };
        if count == 0 {
            break;
        }
        if session
            .take_piece(options, &piece[..count], writer, source)
            .is_err()
        {
            return Err(RunFault::Writing);
        }
    }
    if session.end_line(options, writer, source).is_err() {
        return Err(RunFault::Writing);
    }
    Ok(())
}

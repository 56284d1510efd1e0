//! Prints the frames of the addresses of an object.

use addr_table::{Frame, Module, Steps};
use anyhow::{Context, Result};
use std::io::{self, BufWriter, Write};

/// The number of addresses that are asked.
const ASKED: u64 = 10_000;

/// Prints the frames of addresses that are spread over the object: a line with the address, and for
/// each frame, innermost first, a line with its name and its source position.
pub fn print_frames(rt: &HostRuntime, module: &Module) -> Result<()> {
    let mut out = BufWriter::new(rt.alloc(), io::writer(rt))?;
    let stride = module.high().saturating_sub(module.low()) / ASKED + 1;
    let mut link = module.low();
    for _ in 0..ASKED {
        print_frames_at(&mut out, module, link)?;
        link = link.saturating_add(stride);
    }
    out.flush().context("writing")?;
    Ok(())
}

/// Prints the frames of an address.
fn print_frames_at<W: Write>(out: &mut W, module: &Module, link: u64) -> Result<()> {
    writeln!(out, "{link:x}")?;
    if let Some(place) = module.find(link, &mut Steps::default()) {
        for frame in module.frames(place) {
            print_frame(out, &frame)?;
        }
    }
    Ok(())
}

/// Prints a frame as `\tNAME\tPATH:LINE`, with `??` for unknown values.
fn print_frame<W: Write>(out: &mut W, frame: &Frame<'_>) -> Result<()> {
    out.write_all(b"\t")?;
    out.write_all(frame.name().unwrap_or(b"??"))?;
    out.write_all(b"\t")?;
    match frame.path() {
        None => out.write_all(b"??")?,
        Some(path) => {
            for (i, part) in path.enumerate() {
                if i > 0 {
                    out.write_all(b"/")?;
                }
                out.write_all(part)?;
            }
        }
    }
    writeln!(out, ":{}", frame.line())?;
    Ok(())
}

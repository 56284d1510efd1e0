//! Objects with units and line programs of the 64-bit format, and with dead code.

use crate::fixtures::*;
use dwarf_samples::{format_of_64_bits, inlined};
use std::alloc::{AllocError, Global};
use std::test::*;

/// Returns the eight bytes of a number.
fn eight(number: usize) -> [u8; 8] {
    (number as u64).to_le_bytes()
}

/// Builds the first sample object with another `.debug_info` and another `.debug_line`. The bytes
/// after them move.
fn with_sections(alloc: Global, info: &[u8], line: &[u8]) -> Result<Vec<u8>, AllocError> {
    let sample = inlined();
    let at_line = info.len().saturating_add(163);
    let at_names = line.len().saturating_add(at_line);
    let parts: [&[u8]; 13] = [
        &sample[0..40],
        // e_shoff
        &eight(at_names.saturating_add(49)),
        &sample[48..163],
        info,
        line,
        // up to the size of .debug_info
        &sample[334..543],
        &eight(info.len()),
        &sample[551..599],
        &eight(at_line),
        &eight(line.len()),
        &sample[615..663],
        &eight(at_names),
        &sample[671..],
    ];
    let mut bytes = Vec::new(alloc);
    for part in parts {
        bytes.extend_from_slice(part)?;
    }
    Ok(bytes)
}

/// Builds the same object with the line program in the 32-bit format.
pub fn wide_unit(alloc: Global) -> Result<Vec<u8>, AllocError> {
    with_sections(alloc, &format_of_64_bits()[163..275], &inlined()[259..334])
}

/// Builds an object with the unit in the 32-bit format, followed by the unit in the 64-bit format.
pub fn both_units(alloc: Global) -> Result<Vec<u8>, AllocError> {
    let mut info = Vec::new(alloc);
    info.extend_from_slice(&inlined()[163..259])?;
    info.extend_from_slice(&format_of_64_bits()[163..275])?;
    with_sections(alloc, &info, &inlined()[259..334])
}

/// Builds an object with a reserved length instead of the escape value of the 64-bit format.
pub fn reserved_length(alloc: Global) -> Result<Vec<u8>, AllocError> {
    let mut object = format_of_64_bits();
    object[163] = 0xf0;
    object.to_vec(alloc)
}

/// All frames of `leaf` inlined into `mid` inlined into `main`.
const FRAMES: &[u8] = b"loaded a 0x0000000000011000-0x0000000000012000\n\
        leaf\n/src/a.c:11\nmid\n/src/a.c:5\nmain\n/src/a.c:20\n";

/// Objects of both formats and with dead code: options, input and output.
#[test]
fn formats_and_dead_code(rt: HostRuntime) {
    let runs: [Run<'_>; 6] = [
        // units and programs of 64 bits
        (b"fi", b"load a 0x10000 wide\n11004\n", FRAMES),
        // a unit of 64 bits with a program of 32
        (b"fi", b"load a 0x10000 wide unit\n11004\n", FRAMES),
        // units of both formats
        (b"fi", b"load a 0x10000 both units\n11004\n", FRAMES),
        // dropped subprogram
        (
            b"fi",
            b"load a 0x10000 dropped main\n11004\n",
            b"loaded a 0x0000000000011000-0x0000000000012000\n??\n/src/a.c:11\n",
        ),
        // dropped rows
        (
            b"fi",
            b"load a 0x10000 dropped rows\n11004\n",
            b"loaded a 0x0000000000011000-0x0000000000012000\n\
            leaf\n??:0\nmid\n/src/a.c:5\nmain\n/src/a.c:20\n",
        ),
        // dropped inlined subroutine
        (
            b"fi",
            b"load a 0x10000 dropped mid\n11004\n",
            b"loaded a 0x0000000000011000-0x0000000000012000\n\
            leaf\n/src/a.c:11\nmain\n/src/a.c:5\n",
        ),
    ];
    fresh(&rt, &runs);
}

/// Refused objects: input and output.
#[test]
fn refused_formats(rt: HostRuntime) {
    let runs: [(&[u8], &[u8]); 2] = [
        // a reserved length
        (
            b"load c 0 no length\n",
            b"refused object .debug_info length at 0\n",
        ),
        // dropped rows that do not end
        (
            b"load c 0 open rows\n",
            b"refused object .debug_line sequence-open at 0\n",
        ),
    ];
    refused(&rt, &runs);
}

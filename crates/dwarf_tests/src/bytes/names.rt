//! Section names in an object with many section headers.

use crate::checks::{are_equal, expect, put, put_many};
use dwarf_bytes::{Cause, LoadFault, Object, Section, Span};
use std::process::Abort;
use std::test::*;

/// The number of section headers, and the size of the long name in bytes.
const HEADERS: u16 = 20_000;

const NAME_LEN: u32 = 100_000;

/// The offsets of the program header, the names, and the section headers.
const SEGMENT: usize = 64;

const NAMES: usize = SEGMENT + 56;

const NAMES_LEN: u32 = NAME_LEN + 15;

const SECTIONS: usize = NAMES + NAMES_LEN as usize;

/// Returns the file header of an object with `HEADERS` sections. The last section has the names.
fn file_header() -> [u8; 64] {
    let mut header = [0; 64];
    header[..7].copy_from_slice(b"\x7fELF\x02\x01\x01");
    header[16] = 3;
    header[32] = SEGMENT as u8;
    header[40..48].copy_from_slice(&(SECTIONS as u64).to_le_bytes());
    header[54] = 56;
    header[56] = 1;
    header[58] = 64;
    header[60..62].copy_from_slice(&HEADERS.to_le_bytes());
    header[62..64].copy_from_slice(&(HEADERS - 1).to_le_bytes());
    header
}

/// Returns the header of a load segment of 0x1000 bytes.
fn segment() -> [u8; 56] {
    let mut header = [0; 56];
    header[0] = 1;
    header[41] = 0x10;
    header
}

/// Returns a section header with its name at an offset.
fn section(name: u32, place: usize, len: usize) -> [u8; 64] {
    let mut header = [0; 64];
    header[..4].copy_from_slice(&name.to_le_bytes());
    header[24..32].copy_from_slice(&(place as u64).to_le_bytes());
    header[32..40].copy_from_slice(&(len as u64).to_le_bytes());
    header
}

/// Builds an object where all section headers but the last two refer to one long name, at an offset
/// into it. The one before the last is named `.debug_str`, which follows the long name.
fn long_names(rt: &(impl Abort + AllocGlobal), offset: u32) -> Vec<u8> {
    let mut object = Vec::new(rt.alloc());
    put(rt, &mut object, &file_header());
    put(rt, &mut object, &segment());
    put(rt, &mut object, b".debug_str");
    put_many(rt, &mut object, NAME_LEN as usize - 10, b"x");
    put(rt, &mut object, b"\0.debug_str\0\x61\x62\x63");
    put_many(
        rt,
        &mut object,
        HEADERS as usize - 2,
        &section(offset, 0, 0),
    );
    put(rt, &mut object, &section(NAME_LEN + 1, 3, 5));
    put(rt, &mut object, &section(0, NAMES, NAMES_LEN as usize));
    object
}

/// Returns the fault of a section header.
fn fault(at: u64) -> Option<LoadFault> {
    Some(LoadFault {
        section: Section::Elf,
        cause: Cause::Table,
        at,
    })
}

#[test]
fn walks_over_no_name(rt: HostRuntime) {
    let layout = expect(
        &rt,
        Object::find(&long_names(&rt, 0)).ok(),
        "the object is refused",
    );
    are_equal(&rt, layout.debug_str, Span { place: 3, len: 5 });
    are_equal(&rt, layout.debug_info, Span { place: 0, len: 0 });
}

#[test]
fn refuses_a_name_after_the_last_nul(rt: HostRuntime) {
    let last_nul = NAME_LEN + 11;
    let object = long_names(&rt, last_nul);
    are_equal(&rt, Object::find(&object).err(), None);
    for offset in [last_nul + 1, NAMES_LEN - 1, NAMES_LEN, u32::MAX] {
        let object = long_names(&rt, offset);
        are_equal(&rt, Object::find(&object).err(), fault(SECTIONS as u64));
    }
}

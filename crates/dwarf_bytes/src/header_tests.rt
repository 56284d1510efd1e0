//! Validation of the ELF file header.

ghost use Rattle.std.specs.Prelude.{◌≡◌, ◌≤◌, ◌<◌, ◌+◌, ◌*◌, ◌⊎◌, length, MatchResult, Some, None};
ghost use Rattle.std.specs.Prelude.{IfOk, IsTrue, false};
ghost use Rattle.dwarf_bytes.specs.Faults.{first_failure};
ghost use Rattle.dwarf_bytes.specs.Headers.{file_header};
ghost use Rattle.dwarf_bytes.specs.Elf.{is_not_elf, is_other_class, is_other_type};
ghost use Rattle.dwarf_bytes.specs.Elf.{is_invalid_segment_table, is_invalid_section_table};
ghost use Rattle.dwarf_bytes.specs.Elf.{header_tests};

use crate::fault::Cause;
use crate::fields::byte_at;
use crate::headers::{
    ET_DYN, ET_EXEC, FileHeader, PN_XNUM, SHN_LORESERVE, file_header, is_outside,
};

/// The maximum size of an object: 1 GiB.
const MAX_BYTES: usize = 1 << 30;

const MAGIC: [u8; 4] = [0x7f, b'E', b'L', b'F'];

/// Parses the file header. Returns the first cause if the file is too large, or if the header or
/// one of its tables is invalid or outside the file.
pub(crate) fn checked_header(bytes: &[u8]) -> Result<FileHeader, Cause>
    ensures header { MatchResult result
        (λ header. (first_failure (header_tests bytes.now) ≡ None)
        × (header ≡ file_header bytes.now))
        (λ cause. first_failure (header_tests bytes.now) ≡ Some cause) }
    ensures sections { IfOk result (λ header. is_invalid_section_table bytes.now header ≡ false) }
    ensures segments { IfOk result (λ header. 0 < header.phnum →
        header.phoff + 56 * header.phnum ≤ length bytes.now) }
{
    if bytes.len() > MAX_BYTES {
        return Err(Cause::TooMany);
    }
    if is_not_elf(bytes) {
        return Err(Cause::NotElf);
    }
    if is_other_class(bytes) {
        return Err(Cause::Class);
    }
    let header = file_header(bytes);
    if is_other_type(&header) {
        return Err(Cause::FileType);
    }
    if is_invalid_segment_table(bytes, &header) {
        return Err(Cause::Table);
    }
    if is_invalid_section_table(bytes, &header) {
        return Err(Cause::Table);
    }
    Ok(header)
}

fn is_not_elf(bytes: &[u8]) -> bool
    ensures value { result ≡ is_not_elf bytes.now }
    ensures long { 64 ≤ length bytes.now ⊎ IsTrue result }
{
    bytes.len() < 64 || &bytes[..4] != MAGIC.as_slice()
}

fn is_other_class(bytes: &[u8]) -> bool
    requires { 64 ≤ length bytes.now }
    ensures { result ≡ is_other_class bytes.now }
{
    byte_at(bytes, 4) != 2 || byte_at(bytes, 5) != 1 || byte_at(bytes, 6) != 1
}

fn is_other_type(header: &FileHeader) -> bool
    ensures { result ≡ is_other_type header.now }
{
    header.e_type != ET_EXEC && header.e_type != ET_DYN
}

fn is_invalid_segment_table(bytes: &[u8], header: &FileHeader) -> bool
    ensures { result ≡ is_invalid_segment_table bytes.now header.now }
{
    let size = 56 * u64::from(header.phnum);
    header.phnum == PN_XNUM
        || (header.phnum > 0 && (header.phentsize != 56 || is_outside(bytes, header.phoff, size)))
}

fn is_invalid_section_table(bytes: &[u8], header: &FileHeader) -> bool
    ensures { result ≡ is_invalid_section_table bytes.now header.now }
{
    let size = 64 * u64::from(header.shnum);
    (header.shnum != 0 || header.shoff != 0)
        && (header.shnum == 0
            || header.shnum >= SHN_LORESERVE
            || header.shentsize != 64
            || header.shstrndx >= header.shnum
            || is_outside(bytes, header.shoff, size))
}

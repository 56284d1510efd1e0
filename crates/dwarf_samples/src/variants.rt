//! The first object with a few bytes changed.

use crate::inlined;

/// A `.debug_abbrev` of two bytes, cut inside its first declaration.
pub fn cut_abbreviations() -> [u8; 703] {
    let mut object = inlined();
    object[479] = 0x02;
    object
}

/// Two inlined subroutines, each the abstract origin of the other.
pub fn circular_origins() -> [u8; 703] {
    let mut object = inlined();
    object[218] = 0x49;
    object[237] = 0x36;
    object
}

/// A line header of 2^49 directories without a format for them.
pub fn many_directories_without_a_format() -> [u8; 703] {
    let mut object = inlined();
    object[289] = 0x00;
    object[290] = 0x80;
    object[291] = 0x80;
    object[292] = 0x80;
    object[293] = 0x80;
    object[294] = 0x80;
    object[295] = 0x80;
    object[296] = 0x80;
    object[297] = 0x01;
    object
}

/// `leaf` inlined with an empty range.
pub fn leaf_without_code() -> [u8; 703] {
    let mut object = inlined();
    object[249] = 0x00;
    object
}

/// A unit of DWARF 4.
pub fn version_four() -> [u8; 703] {
    let mut object = inlined();
    object[167] = 0x04;
    object
}

/// A call file past the last file of the line program.
pub fn call_file_outside() -> [u8; 703] {
    let mut object = inlined();
    object[234] = 0x02;
    object
}

/// A `.debug_line` one byte shorter than its program.
pub fn cut_line_program() -> [u8; 703] {
    let mut object = inlined();
    object[607] = 0x4a;
    object
}

/// An abstract origin that is the offset of no entry.
pub fn origin_of_no_entry() -> [u8; 703] {
    let mut object = inlined();
    object[218] = 0x1a;
    object
}

/// The start of `main` is the mark of dropped code.
pub fn dropped_main() -> [u8; 703] {
    let mut object = inlined();
    object[205..213].copy_from_slice(&[0xff; 8]);
    object
}

/// The start of `mid` inlined into `main` is.
pub fn dropped_mid() -> [u8; 703] {
    let mut object = inlined();
    object[222..230].copy_from_slice(&[0xff; 8]);
    object
}

/// The start of the sequence of rows is.
pub fn dropped_sequence() -> [u8; 703] {
    let mut object = inlined();
    object[317..325].copy_from_slice(&[0xff; 8]);
    object
}

/// The same with an instruction in place of the end of the sequence.
pub fn open_dropped_sequence() -> [u8; 703] {
    let mut object = dropped_sequence();
    object[333] = 0x04;
    object
}

//! Sample objects: small ELF files with DWARF 5, for the tests of every crate. Each variant is made
//! from the first object by the few bytes in which it differs.
#![tactic(auto)]

mod first;
mod second;
mod third;
mod variants;

pub use first::inlined;
pub use second::two_sequences;
pub use third::format_of_64_bits;
pub use variants::{
    call_file_outside, circular_origins, cut_abbreviations, cut_line_program, dropped_main,
    dropped_mid, dropped_sequence, leaf_without_code, many_directories_without_a_format,
    open_dropped_sequence, origin_of_no_entry, version_four,
};

//! Tests of `dwarf_lines` on small line programs, with expected results worked out by hand.

mod fixtures;
mod headers;
mod rows;
mod tables;

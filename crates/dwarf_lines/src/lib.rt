//! The line programs of an object: the rows of its line matrix, and its directories and files
//! (DWARF 5, 6.2).
#![tactic(auto)]

mod entries;
mod entry_tables;
mod formats;
mod instruction;
pub mod laws;
mod line_encoding;
mod lines;
mod matrix;
mod path;
mod program_bounds;
mod programs;
mod registers;
mod row;
mod usual_operands;
mod usual_registers;
mod usual_rows;

pub use dwarf_bytes::Text;
pub use lines::LineTables;
pub use path::PathParts;
pub use row::{ProgramNo, Row};

//! The address ranges of an entry, and the tables of its unit that they need (DWARF 5, 2.17, 3.1.1
//! and 7.25 to 7.28).
#![tactic(auto)]

mod bases;
pub mod laws;
mod range;
mod range_entries;
mod ranges;
mod roots;

pub use bases::{Bases, Table, item_at};
pub use range::Range;
pub use ranges::covers;
pub use roots::root_bases;

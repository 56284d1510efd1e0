//! A memo of attribute lists by their offset in `.debug_abbrev` (DWARF 5, 7.5.3), for tables that
//! overlap: all tables together take time and memory linear, but for a logarithm, in
//! the bytes of the section and the declarations that are read.
#![tactic(auto)]

mod list_end;
mod list_start;
mod memoize;
mod memoized_lists;
mod name_sets;

pub use list_end::{ListEnd, UNSHARED, read_specifications};
pub use list_start::ListStart;
pub use memoized_lists::MemoizedLists;

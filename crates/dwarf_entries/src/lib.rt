//! Roots, scopes, ranges and names of `.debug_info` (DWARF 5, chapters 2, 3 and 7.5).
#![tactic(auto)]

mod calls;
mod entry_names;
pub mod laws;
mod name_cache;
mod names;
mod origin_chains;
mod passes;
mod references;
mod scope;
mod scope_lists;
mod scopes;
mod string_sections;
mod text_offset;
mod tree_laws;
mod unit_scopes;
mod units;

pub use dwarf_ranges::Range;
pub use dwarf_walk::{ScopeKind, Sections};
pub use scope::{Root, Scope};
pub use scopes::Scopes;
pub use text_offset::TextOffset;

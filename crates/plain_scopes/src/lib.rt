//! A reference implementation of the reader of scopes, for tests. It follows the definitions of
//! `dwarf_entries/specs` step by step and caches nothing, so it is slow.
#![tactic(auto)]

mod attributes;
mod entries;
mod names;
mod references;
mod scopes;
mod sites;
mod tree;
mod units;

pub use scopes::PlainScope;
pub use tree::PlainScopes;

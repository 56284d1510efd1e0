//! Walks the entries of a unit of `.debug_info`, stores their scopes, and re-reads entries at
//! their offsets (DWARF 5, chapters 2.3, 3.3 and 7.5).
#![tactic(auto)]

mod descendants;
mod entry_at;
mod entry_bitmap;
mod entry_reader;
mod fast_path;
mod long_entries;
mod packed;
mod scope_kind;
mod sections;
mod unit_entries;
mod walk;

pub use entry_bitmap::EntryBitmap;
pub use entry_reader::EntryReader;
pub use packed::narrow;
pub use scope_kind::ScopeKind;
pub use sections::Sections;
pub use unit_entries::{NamedEntry, RootEntry, ScopeEntry, ScopePlace, UnitEntries};
pub use walk::entries;

//! Theorems about all units and their entries.

ghost use Rattle.std.specs.Prelude.{◌≡◌, ◌<◌, ◌+◌, ◌↔◌, ℕ, List, [], ◌∷◌, ◌++◌, Option, Some, Ok};
ghost use Rattle.std.specs.Prelude.{true, map, take, drop, count_by, slice_get};
ghost use Rattle.dwarf_units.specs.Entries.{Die, below, IsBelow};
ghost use Rattle.dwarf_entries.specs.{declared.scope.Scope.Scope as StoredScope, Scopes.own};
ghost use Rattle.dwarf_entries.specs.{Scopes.{own_of, Scope, Tree, tree_of}, Order.AreInOrder};
ghost use Rattle.dwarf_entries.specs.Order.{HasDataOf};
ghost use Rattle.dwarf_walk.specs.{ScopeEntries.is_scope, Sections.Sections};

pub use crate::tree_laws::{
    ends_follow_descendants, entries_are_contiguous, names_are_strings, offsets_rise,
    ranges_are_nonempty, roots_partition_scopes, scopes_are_entries, units_are_contiguous,
};
pub use dwarf_ranges::laws::base_is_of_last_base_entry;
pub use dwarf_units::laws::{entries_are_at_counted_depths, offsets_of_entries_rise};

/// One scope of a unit is below another if and only if its number is greater than the other's
/// number and less than the other's end. The number of a scope is the number of scopes before it.
/// Its end is the number after the last scope below it.
pub fn scopes_below_are_between()
    ensures { (dies : List Die) (i j : ℕ) (outer inner : Die)
        → slice_get dies i ≡ Some outer → slice_get dies j ≡ Some inner
        → is_scope outer ≡ true → is_scope inner ≡ true
        → let number : ℕ → ℕ = λ place. count_by is_scope (take place dies) in
        let end : ℕ = number i + 1 + count_by is_scope (below outer (drop (i + 1) dies)) in
        IsBelow dies j i ↔ ((number i < number j) × (number j < end)) }
{}

/// The number of each scope of an object is its index, and its end is within the list. A scope
/// that starts inside another one also ends inside it.
pub fn scopes_are_in_order()
    ensures { (s : Sections) (tree : Tree) → tree_of s ≡ Ok tree → AreInOrder tree.scopes }
{}

/// If scopes are in order, the scope that the program stores at an index returns all data of the
/// scope at that index.
#[tactic(auto, using(crate::proofs::ScopePasses::DataLaws::stored_data))]
pub fn scopes_have_their_data()
    ensures { (scopes : List Scope) (stored : List StoredScope) (place : ℕ) (k : StoredScope)
        → AreInOrder scopes → map own_of stored ≡ map own scopes → slice_get stored place ≡ Some k
        → (s : Scope) × (slice_get scopes place ≡ Some s) × HasDataOf scopes k s }
{}

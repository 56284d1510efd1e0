//! Theorems about the entries of every unit.

ghost use Rattle.std.specs.{List.Sorted.IsStrictlyIncreasing, Prelude.{List, Ok, Some, [], map}};
ghost use Rattle.std.specs.Prelude.{slice_get, take, ℕ, ◌≡◌};
ghost use Rattle.dwarf_bytes.specs.{Items.items_from, declared.format.Format.Format};
ghost use Rattle.dwarf_forms.specs.Declarations.{Declaration};
ghost use Rattle.dwarf_units.specs.Entries.{AreDepths, Die, LocatedNode, entries_of, entry_at};
ghost use Rattle.dwarf_units.specs.{Entries.node_at, declared.unit_headers.UnitHeader.UnitHeader};

/// The depth of each entry or null entry is the number of entries with children before it, less
/// the number of null entries before it that are at a depth above 0.
#[tactic(auto, using(crate::proofs::EntryOrder::nodes_are_depths))]
pub fn entries_are_at_counted_depths()
    ensures { (format : Format) (table : List Declaration) (unit : List ℕ) (end first : ℕ)
        (all : List LocatedNode) (after : ℕ)
        → items_from end (node_at format table unit) [] first ≡ Ok (all, after) → AreDepths all }
{}

/// The offsets of the entries of a unit are strictly increasing.
#[tactic(auto, using(crate::proofs::EntryOrder::offsets_rise))]
pub fn offsets_of_entries_rise()
    ensures { (info : List ℕ) (header : UnitHeader) (table : List Declaration) (dies : List Die)
        → entries_of info header table ≡ Ok dies
        → IsStrictlyIncreasing (map (λ (die : Die). die.offset) dies) }
{}

/// Re-reading an entry at its offset, without regard to the entries before it, returns the same
/// tag and attributes.
#[tactic(auto, using(crate::proofs::EntryOrder::entries_again))]
pub fn entries_are_reread()
    ensures { (info : List ℕ) (header : UnitHeader) (table : List Declaration) (dies : List Die)
        → entries_of info header table ≡ Ok dies
        → (i : ℕ) (die : Die) → slice_get dies i ≡ Some die
        → (after : ℕ) × (entry_at header.format table (take header.end info) die.offset
        ≡ Ok ((die.tag, die.attributes), after)) }
{}

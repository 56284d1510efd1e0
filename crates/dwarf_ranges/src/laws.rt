//! Theorems about range lists.

ghost use Rattle.std.specs.Prelude.{List, Option, Some, map, ℕ, ◌++◌, ◌∷◌, ◌≡◌};
ghost use Rattle.dwarf_ranges.specs.{Ranges.base_after, declared.range.Range.Range};
ghost use Rattle.dwarf_ranges.specs.declared.range_entries.RangeListEntry.{RangeListEntry};
ghost use Rattle.dwarf_ranges.specs.declared.range_entries.RangeListEntry.TheVariants.{Base};
ghost use Rattle.dwarf_ranges.specs.declared.range_entries.RangeListEntry.TheVariants.{Covers};

/// The current base after some entries of a range list is the one set by the last base entry. If
/// no entry sets a base, it is the initial base, which is the low_pc of the unit.
#[tactic(auto, using(crate::proofs::BaseLaws::base_of_last, crate::proofs::BaseLaws::base_stays))]
pub fn base_is_of_last_base_entry()
    ensures last { (low_pc : Option ℕ) (before : List RangeListEntry) (base : ℕ)
        (ranges : List (Option Range))
        → base_after low_pc (before ++ Base base ∷ map (λ range. Covers range) ranges) ≡ Some base }
    ensures none { (low_pc : Option ℕ) (ranges : List (Option Range))
        → base_after low_pc (map (λ range. Covers range) ranges) ≡ low_pc }
{}

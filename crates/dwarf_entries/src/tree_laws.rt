//! Theorems about the result for a whole object.

ghost use Rattle.std.specs.Prelude.{◌≡◌, ◌<◌, ◌≤◌, ◌↔◌, ℕ, List, Some, Ok, true, IfSome, All};
ghost use Rattle.std.specs.{Prelude.{Contains, map, length, slice_get, sum_by}, List.filter_map};
ghost use Rattle.dwarf_forms.specs.Declarations.{Declaration};
ghost use Rattle.dwarf_units.specs.{declared.unit_headers.UnitHeader.UnitHeader, Units.headers_of};
ghost use Rattle.dwarf_units.specs.{Units.units_of, Entries.{LocatedNode, Die, IsBelow, die_of}};
ghost use Rattle.dwarf_units.specs.Entries.{entries_of};
ghost use Rattle.dwarf_entries.specs.{declared.scope.Root.Root, Units.CompilationUnit};
ghost use Rattle.dwarf_entries.specs.{Units.units_read, Scopes.{Scope, Tree, items_limit}};
ghost use Rattle.dwarf_entries.specs.{Scopes.{roots_from, tree_of}, TreeLaws.RiseBelow};
ghost use Rattle.dwarf_entries.specs.TreeLaws.{ArePartsFrom, IsOfUnit, IsEntry, IsTextOf};
ghost use Rattle.dwarf_entries.specs.TreeLaws.{AreContiguous, FillsUnit};
ghost use Rattle.dwarf_walk.specs.{ScopeEntries.is_scope, Sections.Sections};
ghost use Rattle.dwarf_ranges.specs.Ranges.{IsValidRange};

/// The offsets of the scopes are strictly increasing, and so are the offsets of the roots. All are
/// within `.debug_info`.
pub fn offsets_rise()
    ensures scopes { (s : Sections) (tree : Tree) → tree_of s ≡ Ok tree
        → RiseBelow (length s.debug_info) (map (λ (scope : Scope). scope.offset) tree.scopes) }
    ensures roots { (s : Sections) (tree : Tree) → tree_of s ≡ Ok tree
        → RiseBelow (length s.debug_info) (map (λ (root : Root). root.offset) tree.roots) }
{}

/// Each range of a scope is nonempty. All scopes together have at most as many ranges as the limit
/// on range items.
pub fn ranges_are_nonempty()
    ensures ranges { (s : Sections) (tree : Tree) → tree_of s ≡ Ok tree
        → All (λ (scope : Scope). All IsValidRange scope.ranges) tree.scopes }
    ensures count { (s : Sections) (tree : Tree) → tree_of s ≡ Ok tree
        → sum_by (λ (scope : Scope). length scope.ranges) tree.scopes ≤ items_limit }
{}

/// The roots partition the numbers of the scopes, in order and without gaps. A scope belongs to
/// the unit of the root that contains its number.
pub fn roots_partition_scopes()
    ensures parts { (s : Sections) (tree : Tree) → tree_of s ≡ Ok tree
        → ArePartsFrom 0 (length tree.scopes) tree.roots }
    ensures scopes { (s : Sections) (tree : Tree) (root : Root) (scope : Scope)
        → tree_of s ≡ Ok tree → Contains tree.roots root → Contains tree.scopes scope
        → root.first ≤ scope.number → scope.number < root.past → IsOfUnit root scope }
{}

/// The roots and scopes belong to the units that were read. Each scope is an entry of a unit, and
/// each entry of a unit that is a subprogram or an inlined subroutine is a scope.
pub fn scopes_are_entries()
    ensures units { (s : Sections) (tree : Tree) → tree_of s ≡ Ok tree
        → (units : List CompilationUnit) × (units_read s ≡ Ok units)
        × (roots_from 0 units ≡ tree.roots) }
    ensures entries { (s : Sections) (tree : Tree) (units : List CompilationUnit) (scope : Scope)
        → tree_of s ≡ Ok tree → units_read s ≡ Ok units → Contains tree.scopes scope
        → (unit place : ℕ) × IsEntry units unit place scope }
    ensures scopes { (s : Sections) (tree : Tree) (units : List CompilationUnit) (unit place : ℕ)
        (of : CompilationUnit) (die : Die) → tree_of s ≡ Ok tree → units_read s ≡ Ok units
        → slice_get units unit ≡ Some of → slice_get of.dies place ≡ Some die → is_scope die ≡ true
        → (scope : Scope) × Contains tree.scopes scope × IsEntry units unit place scope }
{}

/// One scope is below another in the same unit if and only if its number is greater than the
/// other's number and less than the other's end.
pub fn ends_follow_descendants()
    ensures { (s : Sections) (tree : Tree) (units : List CompilationUnit) (outer inner : Scope)
        (i j p q : ℕ) → tree_of s ≡ Ok tree → units_read s ≡ Ok units
        → Contains tree.scopes outer → Contains tree.scopes inner
        → (outer_at : IsEntry units i p outer) → IsEntry units j q inner
        → ((i ≡ j) × IsBelow outer_at.of.dies q p)
        ↔ ((outer.number < inner.number) × (inner.number < outer.«end»)) }
{}

/// The names of a scope are NUL-terminated strings in their sections.
pub fn names_are_strings()
    ensures names { (s : Sections) (tree : Tree) → tree_of s ≡ Ok tree
        → All (λ (scope : Scope). IfSome scope.name (IsTextOf s)) tree.scopes }
    ensures linkage_names { (s : Sections) (tree : Tree) → tree_of s ≡ Ok tree
        → All (λ (scope : Scope). IfSome scope.linkage_name (IsTextOf s)) tree.scopes }
{}

/// The units are contiguous in `.debug_info`, as their headers describe.
#[tactic(auto, using(crate::proofs::UnitPasses::HeaderLaws::units_contiguous))]
pub fn units_are_contiguous()
    ensures { (info : List ℕ) (headers : List UnitHeader) → headers_of info ≡ Ok headers
        → AreContiguous info 0 headers }
{}

/// The entries and null entries of a unit are contiguous, from its first entry up to the end of
/// the unit. The entries of the unit are those that are not null.
pub fn entries_are_contiguous()
    ensures { (info : List ℕ) (headers : List UnitHeader) (header : UnitHeader)
        (table : List Declaration) (dies : List Die)
        → units_of info ≡ Ok headers → Contains headers header
        → entries_of info header table ≡ Ok dies
        → (all : List LocatedNode) × FillsUnit info header table all × (filter_map die_of all
        ≡ dies) }
{}

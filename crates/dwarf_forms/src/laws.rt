//! Theorems that state what the reads of declarations and values return in the terms of the
//! standard.

ghost use Rattle.std.specs.Prelude.{◌≡◌, ◌++◌, ◌≤◌, ◌↔◌, List, Option, ℕ, ℤ, Ok, Err, length};
ghost use Rattle.std.specs.Prelude.{if◌then◌else◌};
ghost use Rattle.dwarf_bytes.specs.{Items.{without_offset, items_from}, Numbers.IsEncodedAt};
ghost use Rattle.dwarf_bytes.specs.declared.format.Format.{Format};
ghost use Rattle.dwarf_forms.specs.Declarations.{Declaration, EncodesTable, AreValid};
ghost use Rattle.dwarf_forms.specs.declared.attribute.AttributeSpecification.{
  AttributeSpecification as Specification,
};
ghost use Rattle.dwarf_forms.specs.Tables.{attribute_at, attributes_at, shares_name, table_at};
ghost use Rattle.dwarf_forms.specs.Values.{Value, Spells, value_at};
ghost use Rattle.dwarf_bytes.specs.declared.fault.Cause.TheVariants as causes;

/// A table is read if and only if an encoding of it is at the offset, it is valid, and it has at
/// most `budget` declarations.
pub fn table_is_encoded()
    ensures { (budget : ℕ) (section : List ℕ) (at : ℕ) (table : List Declaration) (next : ℕ)
        → (table_at budget section at ≡ Ok (table, next))
        ↔ (IsEncodedAt EncodesTable section at table next × AreValid table × (length table
        ≤ budget)) }
{}

/// No encoding of a valid table is a proper prefix of another, and each encodes one table.
pub fn table_is_unique()
    ensures { (a b x y : List ℕ) (s t : List Declaration) → EncodesTable a s → AreValid s
        → EncodesTable b t → AreValid t → a ++ x ≡ b ++ y → (a ≡ b) × (s ≡ t) }
{}

/// A list of attributes that is read on its own is also read after other attributes, unless the two
/// share a name. If they do, the read fails with `AttrTwice`, whichever name is shared.
#[tactic(auto, using(crate::proofs::SuffixLists::attributes_append))]
pub fn attributes_are_joined()
    ensures { (section : List ℕ) (own : List Specification) (at : ℕ)
        (rest : List Specification) (next : ℕ)
        → attributes_at section at ≡ Ok (rest, next)
        → without_offset (items_from (length section) (attribute_at section) own at)
        ≡ (if shares_name own rest then Err causes.AttrTwice else Ok (rest, next)) }
{}

/// A value is read if and only if an encoding of it is at the offset.
pub fn value_is_encoded()
    ensures { (form : ℕ) (format : Format) (constant : Option ℤ) (bytes : List ℕ) (at : ℕ)
        (value : Value) (next : ℕ) → (value_at form format constant bytes at ≡ Ok (
          value,
          next,
        )) ↔ IsEncodedAt (Spells form format constant) bytes at value next }
{}

/// No encoding in a form is a proper prefix of another, and each encodes one value.
pub fn value_is_unique()
    ensures { (form : ℕ) (format : Format) (constant : Option ℤ) (a b x y : List ℕ)
        (v w : Value) → Spells form format constant a v → Spells form format constant b w
        → a ++ x ≡ b ++ y → (a ≡ b) × (v ≡ w) }
{}

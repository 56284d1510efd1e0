//! The names of entries, with a cache for the targets of references.

ghost use Rattle.std.specs.Prelude.{◌≡◌, None, Some, IfSome, slice_get};
ghost use Rattle.dwarf_bytes.specs.Refusals.{Gives};
ghost use Rattle.dwarf_units.specs.declared.attributes.AttributeValue.{AttributeValue as Value};
ghost use Rattle.dwarf_entries.specs.{Units.CompilationUnit, Names.{Member, names_of}};
ghost use Rattle.dwarf_entries.specs.{Private.NameCache.target_names, Private.Members.IsMember};
ghost use Rattle.dwarf_entries.specs.Private.PackedNames.{unpacked_names};

use crate::origin_chains::{PackedNames, REFERENCES_LIMIT, UnitEntry};
use crate::units::Units;
use dwarf_bytes::Cause;
use dwarf_units::AttributeValue;
use dwarf_walk::NamedEntry;

impl<'a> Units<'a> {
    /// Returns the names of an entry of a unit. Each name is the first one on the origin chain of
    /// the entry. If the entry has no name of its own, the names of its target are cached, so that
    /// the chain is followed once for many references to the same target.
    pub(crate) fn names(&mut self, start: UnitEntry) -> Result<PackedNames, Cause>
        ensures names { (m : Member) → IsMember self.old.units start.unit start.entry m
            → Gives unpacked_names result (names_of self.old.sections self.old.units m) }
        ensures same { self.new ≡ self.old }
    {
        if let Some(reference) = reference_to_names(&start.entry) {
            return self.target_names(start.unit, reference);
        }
        self.chain_names(start, REFERENCES_LIMIT)
    }

    /// Returns the names of the target of a reference in a unit. A cached result is returned
    /// without a look at the bitmap or a search for the unit, because only offsets of entries are
    /// cached.
    fn target_names(&mut self, unit: usize, reference: AttributeValue) -> Result<PackedNames, Cause>
        ensures names { (u : CompilationUnit) → slice_get self.old.units unit ≡ Some u
            → Gives unpacked_names result
            (target_names self.old.sections self.old.units u reference) }
        ensures same { self.new ≡ self.old }
    {
        let Some(offset) = self.target_offset(unit, reference) else {
            return Err(Cause::Reference);
        };
        if let Some(names) = self.cache.get(offset) {
            return Ok(names);
        }
        let Some(place) = self.entry_place(unit, offset) else {
            return Err(Cause::Reference);
        };
        let next = self.reread_entry(place)?;
        let names = self.chain_names(next, REFERENCES_LIMIT - 1)?;
        self.cache.put(offset, names)?;
        Ok(names)
    }
}

/// Returns the reference to the next entry if an entry has no name of its own.
fn reference_to_names(entry: &NamedEntry) -> Option<AttributeValue>
    ensures some { IfSome result (λ reference. (entry.now.next ≡ Some reference)
        × (entry.now.name ≡ None) × (entry.now.linkage_name ≡ None)) }
    ensures found { (reference : Value) → entry.now.next ≡ Some reference
        → entry.now.name ≡ None → entry.now.linkage_name ≡ None → result ≡ Some reference }
{
    match (entry.next, entry.name, entry.linkage_name) {
        (Some(reference), None, None) => Some(reference),
        _ => None,
    }
}

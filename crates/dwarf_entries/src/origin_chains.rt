//! The names of an entry, found through its references (DWARF 5, 2.13, 2.15 and 3.3.8).

ghost use Rattle.std.specs.Prelude.{◌≡◌, ◌++◌, ◌∷◌, [], ℕ, List, Some, is_some, slice_get};
ghost use Rattle.std.specs.Prelude.{if◌then◌else◌};
ghost use Rattle.dwarf_bytes.specs.Refusals.{Gives};
ghost use Rattle.dwarf_entries.specs.{Units.CompilationUnit, Names.{Member, chain_within}};
ghost use Rattle.dwarf_entries.specs.Names.{first_on, name_on, names_within};
ghost use Rattle.dwarf_entries.specs.Private.Members.{IsMember, IsPlaceOf, IsRereadOf, IsFirst};
ghost use Rattle.dwarf_entries.specs.Private.Members.{AreFirst, FindsFirst};
ghost use Rattle.dwarf_entries.specs.Private.PackedNames.{unpacked_names, unpacked_text};

use crate::names::text_of;
use crate::references::UnitPlace;
use crate::text_offset::PackedText;
use crate::units::Units;
use dwarf_bytes::Cause;
use dwarf_units::AttributeValue;
use dwarf_walk::NamedEntry;

/// The maximum number of references followed in an origin chain.
pub(crate) const REFERENCES_LIMIT: u32 = 16;

/// An entry, with the index of its unit.
#[derive(Clone, Copy)]
pub(crate) struct UnitEntry {
    pub(crate) unit: usize,
    pub(crate) entry: NamedEntry,
}

/// The value of an attribute, if it was found, with the index of the unit that contains it.
#[derive(Clone, Copy)]
pub(crate) struct UnitAttribute {
    pub(crate) unit: usize,
    pub(crate) value: Option<AttributeValue>,
}

/// The first name and the first linkage_name of an origin chain.
#[derive(Clone, Copy)]
pub(crate) struct FirstNames {
    pub(crate) name: UnitAttribute,
    pub(crate) linkage_name: UnitAttribute,
}

impl FirstNames {
    /// Returns the first names of the chain after one more entry is appended to it.
    fn or(self, last: UnitEntry) -> FirstNames
        ensures { (us : List CompilationUnit) (path : List Member) (m : Member)
            → AreFirst us self path → IsMember us last.unit last.entry m
            → AreFirst us result (path ++ m ∷ []) }
    {
        FirstNames {
            name: first(self.name, last.unit, last.entry.name),
            linkage_name: first(self.linkage_name, last.unit, last.entry.linkage_name),
        }
    }
}

/// The names of an entry.
#[derive(Clone, Copy)]
pub(crate) struct PackedNames {
    pub(crate) name: PackedText,
    pub(crate) linkage_name: PackedText,
}

impl<'a> Units<'a> {
    /// Returns the names of an entry of a unit. Each name is the first one on the origin chain of
    /// the entry, which may follow at most `remaining` references. The chain is followed to its end
    /// before the names are validated.
    // Inlined: called for each scope and each reference.
    #[inline(always)]
    pub(crate) fn chain_names(
        &mut self,
        start: UnitEntry,
        remaining: u32,
    ) -> Result<PackedNames, Cause>
        ensures names { (m : Member) → IsMember self.old.units start.unit start.entry m
            → Gives unpacked_names result
            (names_within remaining self.old.sections self.old.units m) }
        ensures same { self.new ≡ self.old }
    {
        let firsts = self.first_names(start, remaining)?;
        let name = self.text(firsts.name)?;
        let linkage_name = self.text(firsts.linkage_name)?;
        Ok(PackedNames { name, linkage_name })
    }

    /// Returns the string of an attribute, if there is one.
    // Inlined: called for each scope and each reference.
    #[inline(always)]
    fn text(&self, found: UnitAttribute) -> Result<PackedText, Cause>
        ensures { (name : ℕ) (path : List Member)
            → IsFirst self.now.units found (first_on name path)
            → Gives unpacked_text result (name_on name self.now.sections path) }
    {
        let Some(value) = found.value else {
            return Ok(PackedText::none());
        };
        let (bases, unit) = (self.bases.as_slice(), found.unit);
        let text = text_of(self.sections, &self.strings, bases, unit, value)?;
        Ok(PackedText::of(text)?)
    }

    /// Returns the first names of the origin chain of an entry, which may follow at most
    /// `remaining` references.
    // Inlined: called for each scope and each reference.
    #[inline(always)]
    fn first_names(&mut self, start: UnitEntry, remaining: u32) -> Result<FirstNames, Cause>
        ensures names { (m : Member) → IsMember self.old.units start.unit start.entry m
            → FindsFirst self.old.units result (chain_within remaining self.old.units m) }
        ensures same { self.new ≡ self.old }
    {
        let none = UnitAttribute {
            unit: start.unit,
            value: None,
        };
        let mut firsts = FirstNames {
            name: none,
            linkage_name: none,
        }
        .or(start);
        let mut last = start;
        let mut left = remaining;
        while let Some(reference) = last.entry.next {
            if left == 0 {
                return Err(Cause::OriginDepth);
            }
            left -= 1;
            let Some(place) = self.target(last.unit, reference) else {
                return Err(Cause::Reference);
            };
            last = self.reread_entry(place)?;
            firsts = firsts.or(last);
        }
        Ok(firsts)
    }

    /// Re-reads the entry at a place.
    // Inlined: called for each scope and each reference.
    #[inline(always)]
    pub(crate) fn reread_entry(&mut self, place: UnitPlace) -> Result<UnitEntry, Cause>
        ensures member { (m : Member) → IsPlaceOf self.old.units place m
            → IsRereadOf self.old.units result m }
        ensures same { self.new ≡ self.old }
    {
        let Some(stored) = self.units.get(place.unit) else {
            return Err(Cause::Reference);
        };
        let entry = self.reader.names_at(stored, &self.bitmap, place.offset)?;
        Ok(UnitEntry {
            unit: place.unit,
            entry,
        })
    }
}

/// Returns the attribute that was found before, or else its value in this unit.
fn first(found: UnitAttribute, unit: usize, value: Option<AttributeValue>) -> UnitAttribute
    ensures { result ≡ (if is_some found.value then found
        else record { unit = unit; value = value }) }
{
    if found.value.is_some() {
        return found;
    }
    UnitAttribute { unit, value }
}

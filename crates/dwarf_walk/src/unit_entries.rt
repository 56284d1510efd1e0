//! The data that is stored for the entries of a unit.

ghost use Rattle.std.specs.Prelude.{◌≡◌, List};
ghost use Rattle.dwarf_units.specs.{declared.attributes.Attribute.Attribute, Used.used_among};
ghost use Rattle.dwarf_walk.specs.Stored.{named_entry, scope_entry, root_entry};
ghost use Rattle.dwarf_walk.specs.{References.{entry_reference, or_else}, Private.Readers.die_with};

use crate::scope_kind::ScopeKind;
use dwarf_bytes::constants::DW_FORM_REF_SIG8;
use dwarf_units::{AttributeValue, EntryValues, UnitHeader, UsedAttributes, UsedName};

/// The names of an entry. `offset` is relative to the start of `.debug_info`, and `next` is the
/// reference to the next entry of the origin chain.
#[derive(Clone, Copy)]
pub struct NamedEntry {
    pub offset: usize,
    pub next: Option<AttributeValue>,
    pub name: Option<AttributeValue>,
    pub linkage_name: Option<AttributeValue>,
}

/// An entry that is a scope: its kind and the attributes that describe it.
#[derive(Clone, Copy)]
pub struct ScopeEntry {
    pub entry: NamedEntry,
    pub kind: ScopeKind,
    pub low_pc: Option<AttributeValue>,
    pub high_pc: Option<AttributeValue>,
    pub ranges: Option<AttributeValue>,
    pub call_file: Option<u64>,
    pub call_line: Option<u64>,
}

/// The compact form in which a scope is stored: the offset of its entry in `.debug_info`, and the
/// number of scopes below it.
#[derive(Clone, Copy)]
pub struct ScopePlace {
    pub offset: u32,
    pub inside: u32,
}

/// The root of a unit: its offset in `.debug_info`, and the attributes that describe the unit.
#[derive(Clone, Copy)]
pub struct RootEntry {
    pub offset: usize,
    pub stmt_list: Option<u64>,
    pub str_offsets_base: Option<AttributeValue>,
    pub addr_base: Option<AttributeValue>,
    pub rnglists_base: Option<AttributeValue>,
    pub low_pc: Option<AttributeValue>,
}

/// The data that is stored for a unit: its root and the offsets of its scopes. The entries are
/// re-read on demand.
#[derive(Drop)]
pub struct UnitEntries {
    pub header: UnitHeader,
    /// The index of its abbreviation table, which is tried first when an entry is re-read.
    pub table: usize,
    pub root: Option<RootEntry>,
    pub scopes: Vec<ScopePlace>,
}

impl NamedEntry {
    /// Extracts the names of the entry at an offset from its used attributes.
    // Inlined: called for each scope and each reference.
    #[inline(always)]
    pub(crate) fn of<V: EntryValues>(offset: usize, found: &V) -> NamedEntry
        ensures { (attributes : List Attribute) → V.used found.now ≡ used_among attributes
            → result ≡ named_entry (die_with offset attributes) }
    {
        NamedEntry {
            offset,
            next: next_reference(found),
            name: found.value(UsedName::Name),
            linkage_name: found.value(UsedName::LinkageName),
        }
    }
}

impl ScopeEntry {
    /// Extracts the scope at an offset from its used attributes.
    // Inlined: called for each scope.
    #[inline(always)]
    pub(crate) fn of<V: EntryValues>(offset: usize, kind: ScopeKind, found: &V) -> ScopeEntry
        ensures { (attributes : List Attribute) → V.used found.now ≡ used_among attributes
            → result ≡ scope_entry (die_with offset attributes) kind }
    {
        ScopeEntry {
            entry: NamedEntry::of(offset, found),
            kind,
            low_pc: found.value(UsedName::LowPc),
            high_pc: found.value(UsedName::HighPc),
            ranges: found.value(UsedName::Ranges),
            call_file: found.value(UsedName::CallFile).map(|value| value.number),
            call_line: found.value(UsedName::CallLine).map(|value| value.number),
        }
    }
}

impl RootEntry {
    /// Extracts the root at an offset from its used attributes.
    pub(crate) fn of(offset: usize, found: &UsedAttributes) -> RootEntry
        ensures { (attributes : List Attribute) → found.now ≡ used_among attributes
            → result ≡ root_entry (die_with offset attributes) }
    {
        RootEntry {
            offset,
            stmt_list: found.value(UsedName::StmtList).map(|value| value.number),
            str_offsets_base: found.value(UsedName::StrOffsetsBase),
            addr_base: found.value(UsedName::AddrBase),
            rnglists_base: found.value(UsedName::RnglistsBase),
            low_pc: found.value(UsedName::LowPc),
        }
    }
}

/// Returns the reference to the next entry, unless it is a type signature (DW_FORM_ref_sig8).
// Inlined: called for each scope and each reference.
#[inline(always)]
fn next_reference<V: EntryValues>(found: &V) -> Option<AttributeValue>
    ensures { result ≡ entry_reference (or_else (V.used found.now).abstract_origin
        (V.used found.now).specification) }
{
    let reference = match found.value(UsedName::AbstractOrigin) {
        Some(reference) => reference,
        None => found.value(UsedName::Specification)?,
    };
    if reference.form == DW_FORM_REF_SIG8 {
        return None;
    }
    Some(reference)
}

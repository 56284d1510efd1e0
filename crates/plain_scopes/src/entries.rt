//! The entries of a unit (DWARF 5, 2.3 and 7.5.2).

ghost use Rattle.std.specs.Prelude.{◌≡◌, ◌≤◌, length, IfOk, IfSome, OnOk, option_map, []};
ghost use Rattle.std.specs.List.{list_any};
ghost use Rattle.dwarf_bytes.specs.Refusals.{Decodes, Gives, in_section};
ghost use Rattle.dwarf_bytes.specs.declared.fault.Section.TheVariants as sections;
ghost use Rattle.dwarf_units.specs.Entries.{attribute, declaration_of, node_at_depth, entries_of};
ghost use Rattle.dwarf_units.specs.Entries.{depth_limit};
ghost use Rattle.dwarf_walk.specs.{References.next_of, ScopeEntries.number_of};
ghost use Rattle.plain_scopes.specs.Walk.{node_of, state_of, after_node, walk_of, is_top};

use crate::attributes::attributes;
use dwarf_bytes::constants::{DW_AT_ABSTRACT_ORIGIN, DW_AT_SPECIFICATION, DW_FORM_REF_SIG8};
use dwarf_bytes::{Cause, Cursor, Format, LoadFault, Section, Span};
use dwarf_forms::Decl;
use dwarf_units::{Attribute, AttributeValue, UnitHeader};
use std::alloc::{AllocError, Global};
use std::marker::Model;

/// An entry that is not null. `offset` is an offset in `.debug_info`.
#[derive(Drop)]
pub(crate) struct Die {
    offset: usize,
    depth: usize,
    tag: u64,
    attributes: Vec<Attribute>,
}

impl Model for Die {
    ghost use Rattle.dwarf_units.specs.Entries.{Die as DieOf};

    ghost Value = { DieOf };

    ghost view = { λ d. record {
      offset = d.offset;
      depth = d.depth;
      tag = d.tag;
      attributes = d.attributes.items;
    } };
}

impl Die {
    pub(crate) fn offset(&self) -> usize
        ensures { result ≡ self.now.offset }
    {
        self.offset
    }

    pub(crate) fn depth(&self) -> usize
        ensures { result ≡ self.now.depth }
    {
        self.depth
    }

    pub(crate) fn tag(&self) -> u64
        ensures { result ≡ self.now.tag }
    {
        self.tag
    }

    /// Returns the value of an attribute, if the entry has it.
    pub(crate) fn attribute(&self, name: u64) -> Option<AttributeValue>
        ensures { result ≡ attribute self.now name }
    {
        let found = self.attributes.iter().find(|a| a.name == name)?;
        Some(found.value)
    }

    /// Returns the value of an attribute as a number, if the entry has it.
    pub(crate) fn number(&self, name: u64) -> Option<u64>
        ensures { result ≡ number_of name self.now }
    {
        Some(self.attribute(name)?.number)
    }

    /// Returns the reference to the next entry of the origin chain. A type signature is not
    /// followed.
    pub(crate) fn next(&self) -> Option<AttributeValue>
        ensures { result ≡ next_of self.now }
    {
        let origin = self.attribute(DW_AT_ABSTRACT_ORIGIN);
        let reference = origin.or(self.attribute(DW_AT_SPECIFICATION))?;
        if reference.form == DW_FORM_REF_SIG8 {
            return None;
        }
        Some(reference)
    }
}

/// The tag of an entry, whether it has children, and its attributes.
#[derive(Drop)]
pub(crate) struct Entry {
    tag: u64,
    children: bool,
    attributes: Vec<Attribute>,
}

/// Returns the declaration of a code.
fn declaration_of(table: &[Decl], code: u64) -> Option<&Decl>
    ensures { option_map (λ d. d.now) result ≡ declaration_of table.now code }
{
    table.iter().find(|declaration| declaration.code() == code)
}

/// Reads the entry at an offset of a unit, at a given depth. Returns `None` for a null entry, and
/// the offset after it. `rooted` is whether the root of the unit is before it.
fn node(
    alloc: Global,
    format: Format,
    table: &[Decl],
    depth: usize,
    rooted: bool,
    unit: &[u8],
    place: usize,
) -> Result<(Option<Entry>, usize), Cause>
    requires { place ≤ length unit.now }
    ensures node { Gives (λ read. (node_of read.0, read.1)) result
        (node_at_depth format table.now depth rooted unit.now place) }
    ensures limit { IfOk result (λ read. IfSome read.0 (λ _. depth ≤ depth_limit)) }
{
    let mut cursor = Cursor::new(unit);
    cursor.seek(place)?;
    let code = cursor.uleb()?;
    if code == 0 {
        return Ok((None, cursor.place()));
    }
    let declaration = declaration_of(table, code).ok_or(Cause::AbbrevCode)?;
    if depth == 0 && rooted {
        return Err(Cause::TwoRoots);
    }
    if depth > 256 {
        return Err(Cause::TooDeep);
    }
    let attributes = attributes(alloc, format, declaration.attributes(), &mut cursor)?;
    let entry = Entry {
        tag: declaration.tag(),
        children: declaration.children(),
        attributes,
    };
    Ok((Some(entry), cursor.place()))
}

/// The entries read so far, and the depth of the next entry.
#[derive(Drop)]
pub(crate) struct UnitWalk {
    depth: usize,
    dies: Vec<Die>,
}

impl UnitWalk {
    fn new(alloc: Global) -> UnitWalk
        ensures { state_of result ≡ record { depth = 0; dies = [] } }
    {
        UnitWalk {
            depth: 0,
            dies: Vec::new(alloc),
        }
    }

    /// Returns whether the root of the unit is read.
    fn is_rooted(&self) -> bool
        ensures { result ≡ list_any is_top (state_of self.now).dies }
    {
        self.dies.iter().any(|die| die.depth() == 0)
    }

    /// Appends the entry at an offset, or closes the list of children at a null entry.
    fn add(&mut self, offset: usize, entry: Option<Entry>) -> Result<(), AllocError>
        requires { IfSome entry (λ _. self.old.depth ≤ depth_limit) }
        ensures { OnOk result (state_of self.new
            ≡ after_node (state_of self.old) offset (node_of entry)) }
    {
        let Some(entry) = entry else {
            self.depth = self.depth.saturating_sub(1);
            return Ok(());
        };
        let children = usize::from(entry.children);
        self.dies.push(Die {
            offset,
            depth: self.depth,
            tag: entry.tag,
            attributes: entry.attributes,
        })?;
        self.depth += children;
        Ok(())
    }
}

/// Reads the entries of a unit up to its end. A fault is reported at the offset of its entry.
fn walk(
    alloc: Global,
    info: &[u8],
    header: &UnitHeader,
    table: &[Decl],
) -> Result<UnitWalk, LoadFault>
    ensures { Decodes state_of result (in_section sections.DebugInfo
        (walk_of info.now header.now table.now)) }
{
    let unit = Span {
        place: 0,
        len: header.end,
    }
    .of(info);
    let mut walk = UnitWalk::new(alloc);
    let mut place = header.first;
    while place < unit.len() {
        let rooted = walk.is_rooted();
        match node(alloc, header.format, table, walk.depth, rooted, unit, place) {
            Err(cause) => return Err(LoadFault::at_item(Section::DebugInfo, cause, place as u64)),
            Ok((entry, after)) => {
                walk.add(place, entry)?;
                place = after;
            }
        }
    }
    Ok(walk)
}

/// Reads the entries of a unit. A list of children that is not terminated is reported at the offset
/// of the unit.
#[tactic(auto, unfolding(crate::specs::Walk::walk_of, dwarf_units::specs::Entries::entries_of))]
pub(crate) fn entries(
    alloc: Global,
    info: &[u8],
    header: &UnitHeader,
    table: &[Decl],
) -> Result<Vec<Die>, LoadFault>
    ensures { Decodes (λ dies. dies.items) result (in_section sections.DebugInfo
        (entries_of info.now header.now table.now)) }
{
    let walk = walk(alloc, info, header, table)?;
    if walk.depth > 0 {
        let at = header.start as u64;
        return Err(LoadFault::at_item(Section::DebugInfo, Cause::TreeOpen, at));
    }
    Ok(walk.dies)
}

//! The walk over the entries of a unit (DWARF 5, 2.3, 7.5.2 and 7.5.3).

ghost use Rattle.std.specs.Prelude.{◌≡◌, ◌<◌, ◌≤◌, ℕ, List, length, Ok, IsSome, IfOk};
ghost use Rattle.std.specs.{Prelude.{OnOk, not, take}, List.filter_map};
ghost use Rattle.dwarf_bytes.specs.Refusals.{Decodes, in_section};
ghost use Rattle.dwarf_units.specs.Entries.{Die, LocatedNode, depth_limit, die_of, node_at_depth};
ghost use Rattle.dwarf_units.specs.Entries.{entries_of};
ghost use Rattle.dwarf_walk.specs.{Stored.{stored_of, stored_entries}, EntryBitmap.AddsOffsets};
ghost use Rattle.dwarf_walk.specs.{EntryBitmap.offsets_of, Private.Readers.IsAfterEntry};
ghost use Rattle.dwarf_walk.specs.Private.Readers.{ReadsNode, Takes, state_of, nodes_of, walk_of};
ghost use Rattle.dwarf_bytes.specs.declared.fault.Section.TheVariants as sections;

use crate::descendants::{WalkedScope, count_descendants};
use crate::entry_bitmap::EntryBitmap;
use crate::unit_entries::{RootEntry, UnitEntries};
use dwarf_bytes::{Cause, Cursor, LoadFault, Section, Span};
use dwarf_units::{UnitHeader, UnitTable, UsedAttributes};
use std::alloc::{AllocError, Global};

/// The parts of a declaration that the walk needs: the tag, and whether children follow.
#[derive(Clone, Copy)]
pub(crate) struct NodeHead {
    pub(crate) tag: u64,
    pub(crate) children: bool,
}

/// The data stored for the entries so far.
#[derive(Drop)]
pub(crate) struct Walk {
    pub(crate) root: Option<RootEntry>,
    pub(crate) scopes: Vec<WalkedScope>,
}

/// The depth of the next entry, and the least depth of the entries since the last scope, which
/// starts at the depth of the children of that scope and is 0 before the first scope.
#[derive(Clone, Copy)]
pub(crate) struct Depths {
    pub(crate) next: u32,
    pub(crate) least: u32,
}

/// Parses the entries of a unit and sets the bit of each in `bitmap`. `number` is the index of its
/// table. A fault is reported at the offset of its entry. A list of children that is not terminated
/// is reported at the offset of the unit. Both are offsets in `.debug_info`.
#[tactic(auto, unfolding(dwarf_units::specs::Entries::entries_of))]
pub fn entries(
    alloc: Global,
    info: &[u8],
    header: UnitHeader,
    number: usize,
    table: &UnitTable<'_>,
    bitmap: &mut EntryBitmap,
) -> Result<UnitEntries, LoadFault>
    requires { table.now.format ≡ header.format }
    ensures decodes { Decodes (λ unit. stored_of unit) result (in_section sections.DebugInfo
        (stored_entries info.now header table.now.declarations)) }
    ensures bitmap { OnOk result ((dies : List Die) → entries_of info.now header
        table.now.declarations ≡ Ok dies → AddsOffsets bitmap.old bitmap.new (offsets_of dies)) }
{
    let (walk, depths) = walk_unit(alloc, info, header, table, bitmap)?;
    if depths.next > 0 {
        let at = header.start as u64;
        return Err(LoadFault::at_item(Section::DebugInfo, Cause::TreeOpen, at));
    }
    Ok(UnitEntries {
        header,
        table: number,
        root: walk.root,
        scopes: count_descendants(alloc, &walk.scopes)?,
    })
}

impl Walk {
    /// Reads the entry or null entry at an offset of a unit with a cursor, and returns the offset
    /// after it. Sets the bit of an entry in `bitmap`. `found` is a buffer for its used attributes.
    // Inlined: once the root is stored, no attributes are.
    #[inline(always)]
    pub(crate) fn step(
        &mut self,
        table: &UnitTable<'_>,
        depths: &mut Depths,
        bitmap: &mut EntryBitmap,
        unit: &[u8],
        place: usize,
        found: &mut UsedAttributes,
    ) -> Result<usize, Cause>
        requires { place < length unit.now }
        ensures { Takes table.now.format table.now.declarations unit.now place
            (state_of self.old depths.old) (state_of self.new depths.new) bitmap.old bitmap.new
            result }
    {
        let mut cursor = Cursor::new(unit);
        cursor.seek(place)?;
        let rooted = self.root.is_some();
        let Some(head) = node(table, depths.next, rooted, &mut cursor, found)? else {
            depths.next = depths.next.saturating_sub(1);
            return Ok(cursor.place());
        };
        bitmap.add_offset(place, true)?;
        self.keep(depths, place, head.tag, found)?;
        depths.next += u32::from(head.children);
        Ok(cursor.place())
    }

    /// Stores the data of the entry at an offset, given its used attributes.
    // Inlined: called for each entry of a variable size.
    #[inline(always)]
    fn keep(
        &mut self,
        depths: &mut Depths,
        offset: usize,
        tag: u64,
        found: &UsedAttributes,
    ) -> Result<(), AllocError>
        requires { depths.old.next ≤ depth_limit }
        ensures { OnOk result (IsAfterEntry (state_of self.old depths.old)
            (state_of self.new depths.new) offset tag found.now) }
    {
        if self.root.is_none() {
            self.root = Some(RootEntry::of(offset, found));
        }
        self.add_scope(depths, offset, tag, false)
    }
}

/// Walks the entries of a unit and sets the bit of each in `bitmap`. A fault is reported at the
/// offset of the entry or null entry that causes it.
// Not inlined: its loop needs all registers.
#[inline(never)]
fn walk_unit(
    alloc: Global,
    info: &[u8],
    header: UnitHeader,
    table: &UnitTable<'_>,
    bitmap: &mut EntryBitmap,
) -> Result<(Walk, Depths), LoadFault>
    requires { table.now.format ≡ header.format }
    ensures decodes { Decodes (λ walk. state_of walk.0 walk.1) result (in_section sections.DebugInfo
        (walk_of info.now header table.now.declarations)) }
    ensures bitmap { OnOk result ((all : List LocatedNode × ℕ) → nodes_of info.now header
        table.now.declarations ≡ Ok all
        → AddsOffsets bitmap.old bitmap.new (offsets_of (filter_map die_of all.0))) }
{
    let unit = unit_bytes(info, &header);
    let mut walk = Walk {
        root: None,
        scopes: Vec::new(alloc),
    };
    let mut depths = Depths { next: 0, least: 0 };
    let mut found = UsedAttributes::none();
    let table = table.copy();
    let mut place = header.first;
    while place < unit.len() {
        place = walk.fixed_size_nodes(&table, &mut depths, bitmap, unit, place)?;
        if place >= unit.len() {
            continue;
        }
        place = match walk.read_node(&table, &mut depths, bitmap, unit, place, &mut found) {
            Ok(after) => after,
            Err(cause) => return Err(LoadFault::at_item(Section::DebugInfo, cause, place as u64)),
        };
    }
    Ok((walk, depths))
}

/// Returns the section up to the end of a unit.
pub(crate) fn unit_bytes<'a>(info: &'a [u8], header: &UnitHeader) -> &'a [u8]
    ensures { result.now ≡ take header.now.«end» info.now }
{
    Span {
        place: 0,
        len: header.end,
    }
    .of(info)
}

/// Reads the entry at the cursor, or returns `None` for a null entry. `rooted` is whether the root
/// of the unit is before it. If it is not, the used attributes are stored in `found`.
// Inlined: called for each entry of a variable size.
#[inline(always)]
fn node(
    table: &UnitTable<'_>,
    depth: u32,
    rooted: bool,
    cursor: &mut Cursor,
    found: &mut UsedAttributes,
) -> Result<Option<NodeHead>, Cause>
    ensures reads { ReadsNode (not rooted) result found.new
        (node_at_depth table.now.format table.now.declarations depth rooted) cursor.old cursor.new }
    ensures limit { IfOk result (λ entry. IsSome entry → depth ≤ depth_limit) }
{
    let Some(head) = table.head(depth, rooted, cursor)? else {
        return Ok(None);
    };
    let tag = head.tag();
    let children = head.children();
    head.read_attributes(!rooted, cursor, found)?;
    Ok(Some(NodeHead { tag, children }))
}

//! The abbreviation table of one unit (DWARF 5, 7.5.3).

ghost use Rattle.std.specs.Prelude.{IfSome, MatchOption, None, Ok, length, option_map};
ghost use Rattle.std.specs.Prelude.{◌<◌, ◌≡◌, ◌≤◌};
ghost use Rattle.dwarf_units.specs.{Entries.depth_limit, Heads.used_entry_at};
ghost use Rattle.dwarf_units.specs.NodeShapes.{IsFixedSizeNode, fixed_size_node_at, short_code_at};
ghost use Rattle.dwarf_units.specs.Private.NodeLayouts.{IsLayoutAt};

use crate::cached_table::CachedTable;
use crate::entry_head::DEPTH_LIMIT;
use crate::linked_lists::LinkedLists;
use crate::node_layout::{NodeLayout, NodeShape};
use crate::value_slot::{FixedSizeEntry, FixedSizeValues, WINDOW};
use std::marker::Model;

/// A cached abbreviation table, together with the attribute lists that its declarations share.
#[derive(Drop)]
pub struct UnitTable<'a> {
    pub(crate) table: &'a CachedTable<'a>,
    pub(crate) linked: &'a LinkedLists<'a>,
    layouts: &'a [Option<NodeLayout>],
}

impl<'a> Model for UnitTable<'a> {
    ghost use Rattle.std.specs.Prelude.{◌≡◌};
    ghost use Rattle.dwarf_units.specs.AbbreviationTables.{Table};
    ghost use Rattle.dwarf_units.specs.{NodeShapes.code_count, Private.NodeLayouts.AreLayouts};

    ghost Value = { Table };

    ghost view = { λ t. t.table.now };

    ghost invariant = { λ t. (t.table.now.section ≡ t.linked.now)
        × AreLayouts t.table.now.format t.table.now.declarations
        (code_count t.table.now.declarations) t.layouts.now };
}

impl<'a> UnitTable<'a> {
    pub(crate) fn new(table: &'a CachedTable<'a>, linked: &'a LinkedLists<'a>) -> UnitTable<'a>
        requires { table.now.section ≡ linked.now }
        ensures { result ≡ table.now }
    {
        UnitTable {
            table,
            linked,
            layouts: table.layouts.as_slice(),
        }
    }

    /// Returns the same table. While no address of it is taken, its fields can be in registers.
    #[inline(always)]
    pub fn copy(&self) -> UnitTable<'a>
        ensures { result ≡ self.now }
    {
        UnitTable { ..*self }
    }

    /// Returns the layout of the nodes with a code, if the table has layouts up to it.
    // Inlined: called for each entry. No `Option<&NodeLayout>`: a missing one costs a null pointer.
    #[inline(always)]
    fn layout(&self, code: u64) -> Option<&'a Option<NodeLayout>>
        ensures { MatchOption result (IsLayoutAt self.now code None)
            (λ layout. IsLayoutAt self.now code layout.now) }
    {
        self.layouts.get(code as usize)
    }

    /// Returns the shape of the node at an offset and the offset after the node, if the node has a
    /// short code and a fixed size, is below the root, and is not truncated.
    // Inlined: called for each entry.
    #[inline(always)]
    #[tactic(auto, unfolding(crate::specs::NodeShapes::fixed_size_node_at))]
    pub fn fixed_size_node(
        &self,
        depth: u32,
        bytes: &[u8],
        place: usize,
    ) -> Option<(&'a NodeShape, usize)>
        ensures found { option_map (λ node. (node.0.now, node.1)) result
            ≡ fixed_size_node_at self.now depth bytes.now place }
        ensures node { IfSome result (λ node. IsFixedSizeNode self.now depth bytes.now place
            (node.0.now, node.1)) }
        ensures depth { IfSome result (λ _. (0 < depth) × (depth ≤ depth_limit)) }
    {
        if depth == 0 || depth > DEPTH_LIMIT {
            return None;
        }
        let (code, start) = short_code(bytes, place)?;
        let Some(layout) = self.layout(code)? else {
            return None;
        };
        let shape = &layout.shape;
        let after = start + u64::from(shape.len) as usize;
        if after > bytes.len() {
            return None;
        }
        Some((shape, after))
    }

    /// Re-reads the entry at an offset, if its layout has slots and `WINDOW` bytes follow its code.
    /// Its values are read on demand.
    // Inlined: called for each scope and each reference.
    #[inline(always)]
    pub fn fixed_size_entry(&self, bytes: &'a [u8], place: usize) -> Option<FixedSizeEntry<'a>>
        ensures entry { IfSome result (λ entry. used_entry_at self.now bytes.now place
            ≡ Ok ((entry.tag, entry.values), entry.after)) }
        ensures within { IfSome result (λ _. place ≤ length bytes.now) }
    {
        let (code, start) = short_code(bytes, place)?;
        let Some(layout) = self.layout(code)? else {
            return None;
        };
        let slots = layout.slots.as_ref()?;
        let rest = &bytes[start..];
        if rest.len() < WINDOW {
            return None;
        }
        let shape = &layout.shape;
        let after = u64::from(shape.len) as usize + start;
        if bytes.len() < after {
            return None;
        }
        Some(FixedSizeEntry {
            tag: u64::from(shape.tag),
            after,
            values: FixedSizeValues { bytes: rest, slots },
        })
    }
}

/// Returns the code at an offset and the offset after it, if the code takes at most two bytes.
// Inlined: called for each entry.
#[inline(always)]
fn short_code(bytes: &[u8], place: usize) -> Option<(u64, usize)>
    ensures code { result ≡ short_code_at bytes.now place }
    ensures within { IfSome result (λ code. code.1 ≤ length bytes.now) }
{
    let low = *bytes.get(place)?;
    if low < 128 {
        return Some((u64::from(low), place + 1));
    }
    let high = *bytes.get(place + 1)?;
    if high >= 128 {
        return None;
    }
    Some((u64::from(low % 128) + 128 * u64::from(high), place + 2))
}

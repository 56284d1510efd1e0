//! The fast path of the walk: a table gives the shape of null entries and of entries of a fixed
//! size by their first byte. All others are read with a cursor.

ghost use Rattle.std.specs.Prelude.{◌≡◌, ◌≤◌, ◌<◌, ℕ, length, min, true, false, OnOk, is_some};
ghost use Rattle.std.specs.Prelude.{IfOk, if◌then◌else◌};
ghost use Rattle.dwarf_units.specs.{Entries.{Node, depth_limit}, NodeShapes.HasShape};
ghost use Rattle.dwarf_walk.specs.Private.Readers.{AddsNode, Steps, Takes, TakesNodes, state_of};
ghost use Rattle.dwarf_walk.specs.Private.Readers.{after_scope};

use crate::descendants::WalkedScope;
use crate::entry_bitmap::EntryBitmap;
use crate::packed::narrow;
use crate::scope_kind::kind_of;
use crate::walk::{Depths, Walk};
use dwarf_bytes::Cause;
use dwarf_units::{NodeShape, UnitTable, UsedAttributes};
use std::alloc::AllocError;

impl Walk {
    /// Reads the nodes from an offset of a unit on up to the first that has no fixed size or is not
    /// below the root, and returns its offset. Sets the bits of the entries in `bitmap`.
    // Inlined: the loop takes most of the time of a walk, and needs few registers.
    #[inline(always)]
    pub(crate) fn fixed_size_nodes(
        &mut self,
        table: &UnitTable<'_>,
        depths: &mut Depths,
        bitmap: &mut EntryBitmap,
        unit: &[u8],
        start: usize,
    ) -> Result<usize, AllocError>
        requires { 0 < depths.old.next → is_some self.old.root ≡ true }
        ensures { IfOk result (λ after. (count : ℕ) × TakesNodes count table.now.format
            table.now.declarations unit.now start (state_of self.old depths.old) bitmap.old after
            (state_of self.new depths.new) bitmap.new) }
    {
        let mut place = start;
        while let Some((shape, after)) = table.fixed_size_node(depths.next, unit, place) {
            self.add_node(depths, bitmap, place, shape)?;
            place = after;
        }
        Ok(place)
    }

    /// Reads the entry or null entry at an offset of a unit and returns the offset after it. Sets
    /// the bit of an entry in `bitmap`. `found` is a buffer for its used attributes.
    // Inlined: called for each entry of a variable size.
    #[inline(always)]
    pub(crate) fn read_node(
        &mut self,
        table: &UnitTable<'_>,
        depths: &mut Depths,
        bitmap: &mut EntryBitmap,
        unit: &[u8],
        place: usize,
        found: &mut UsedAttributes,
    ) -> Result<usize, Cause>
        requires { place < length unit.now }
        ensures { Takes table.now.format table.now.declarations unit.now place
            (state_of self.old depths.old) (state_of self.new depths.new) bitmap.old bitmap.new
            result }
    {
        if self.root.is_none() {
            let (after, next) = self.root_step(table, *depths, bitmap, unit, place, found)?;
            *depths = next;
            return Ok(after);
        }
        self.step(table, depths, bitmap, unit, place, found)
    }

    /// Makes a step before there is a root. Also returns the depths after it.
    // Not inlined: it is rare, and its code would slow down the caller. It takes no reference to
    // the depths, so that they need not be in memory.
    #[cold]
    #[inline(never)]
    fn root_step(
        &mut self,
        table: &UnitTable<'_>,
        mut depths: Depths,
        bitmap: &mut EntryBitmap,
        unit: &[u8],
        place: usize,
        found: &mut UsedAttributes,
    ) -> Result<(usize, Depths), Cause>
        requires { place < length unit.now }
        ensures { Steps table.now.format table.now.declarations unit.now place
            (state_of self.old depths) self.new bitmap.old bitmap.new result }
    {
        let after = self.step(table, &mut depths, bitmap, unit, place, found)?;
        Ok((after, depths))
    }

    /// Adds a node of a fixed size at an offset. It is below the root. Sets the bit of an entry in
    /// `bitmap`.
    // Inlined: called for each entry. It does not branch on null entries, because their order is
    // hard to predict.
    #[inline(always)]
    fn add_node(
        &mut self,
        depths: &mut Depths,
        bitmap: &mut EntryBitmap,
        place: usize,
        shape: &NodeShape,
    ) -> Result<(), AllocError>
        requires rooted { is_some self.old.root ≡ true }
        requires depth { (0 < depths.old.next) × (depths.old.next ≤ depth_limit) }
        ensures { OnOk result ((node : Node) → HasShape shape.now node → AddsNode place node
            (state_of self.old depths.old) (state_of self.new depths.new) bitmap.old bitmap.new) }
    {
        let next = depths.next + u32::from(shape.children) - u32::from(shape.is_null);
        bitmap.add_offset(place, !shape.is_null)?;
        self.add_scope(depths, place, u64::from(shape.tag), shape.is_null)?;
        depths.next = next;
        Ok(())
    }

    /// Updates the least depth with an entry at an offset, and stores the entry if it is a scope.
    /// Does nothing for a null entry, whose tag is 0.
    // Inlined: called for each entry.
    #[inline(always)]
    pub(crate) fn add_scope(
        &mut self,
        depths: &mut Depths,
        offset: usize,
        tag: u64,
        is_null: bool,
    ) -> Result<(), AllocError>
        requires { depths.old.next ≤ depth_limit }
        ensures entry { OnOk result (is_null ≡ false → state_of self.new depths.new
            ≡ after_scope (state_of self.old depths.old) offset tag) }
        ensures null { OnOk result (is_null ≡ true → tag ≡ 0
            → state_of self.new depths.new ≡ state_of self.old depths.old) }
    {
        let Depths { next, least } = *depths;
        if kind_of(tag).is_none() {
            depths.least = least_after(least, next, is_null);
            return Ok(());
        }
        self.scopes.push(WalkedScope {
            offset: narrow(offset)?,
            depth: next as u16,
            least: least.min(next) as u16,
        })?;
        depths.least = next + 1;
        Ok(())
    }
}

/// Returns the least depth after a node that is no scope. A null entry does not change it.
// Without a branch, because the order of null entries is hard to predict.
#[inline(always)]
fn least_after(least: u32, depth: u32, is_null: bool) -> u32
    ensures { result ≡ (if is_null then least else min least depth) }
{
    least.min(depth.max(u32::from(is_null) * u32::MAX))
}

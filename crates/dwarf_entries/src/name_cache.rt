//! A cache of the names of reference targets. The origin chain after an entry is followed once for
//! many references to the entry.

ghost use Rattle.std.specs.Prelude.{◌≡◌, ◌==◌, ℕ, ◌<◌, length, None, Some, option_map};
ghost use Rattle.std.specs.Prelude.{IfOk, IfSome, OnOk, OnErr, if◌then◌else◌};
ghost use Rattle.dwarf_entries.specs.{Names.EntryNames, Private.PackedNames.unpacked_names};
ghost use Rattle.dwarf_entries.specs.Private.NameCache.{cached_names_of, slot_at, slot_of};

use crate::origin_chains::PackedNames;
use dwarf_walk::narrow;
use std::alloc::{AllocError, Global};

/// The maximum number of cached targets.
const SLOTS: usize = 4096;

/// The offset of a target in `.debug_info`, and its names.
#[derive(Clone, Copy)]
pub(crate) struct CachedTarget {
    offset: u32,
    names: PackedNames,
}

impl CachedTarget {
    /// Packs a target and its names. Reports an offset of 2^32 or more as an allocation failure.
    fn of(offset: usize, names: PackedNames) -> Result<CachedTarget, AllocError>
        ensures { IfOk result (λ packed. cached_names_of packed
            ≡ record { offset = offset; names = unpacked_names names }) }
    {
        let offset = narrow(offset)?;
        Ok(CachedTarget { offset, names })
    }
}

/// The cached names of reference targets. The slot of a target is its offset modulo the number of
/// slots. A new entry replaces the old entry of its slot.
#[derive(Drop)]
pub(crate) struct NameCache {
    slots: Vec<Option<CachedTarget>>,
}

impl NameCache {
    pub(crate) fn new(alloc: Global) -> NameCache
        ensures { (slot : ℕ) → slot_at result slot ≡ None }
    {
        NameCache {
            slots: Vec::new(alloc),
        }
    }

    /// Returns the names of the target at an offset, if they are cached.
    pub(crate) fn get(&self, offset: usize) -> Option<PackedNames>
        ensures some { IfSome result (λ names. slot_at self.now (slot_of offset)
            ≡ Some (record { offset = offset; names = unpacked_names names })) }
        ensures found { (names : EntryNames) → slot_at self.now (slot_of offset)
            ≡ Some (record { offset = offset; names = names })
            → option_map unpacked_names result ≡ Some names }
    {
        let packed = self.slots.get(offset % SLOTS)?.as_ref()?;
        if packed.offset as usize == offset {
            return Some(packed.names);
        }
        None
    }

    /// Caches the names of the target at an offset.
    pub(crate) fn put(&mut self, offset: usize, names: PackedNames) -> Result<(), AllocError>
        ensures ok { OnOk result ((slot : ℕ) → slot_at self.new slot
            ≡ if slot == slot_of offset then Some (record {
              offset = offset;
              names = unpacked_names names;
            }) else slot_at self.old slot) }
        ensures err { OnErr result ((slot : ℕ) → slot_at self.new slot ≡ slot_at self.old slot) }
    {
        let packed = CachedTarget::of(offset, names)?;
        let slot = offset % SLOTS;
        self.reach(slot)?;
        self.slots[slot] = Some(packed);
        Ok(())
    }

    /// Appends empty slots until the slot with this index exists.
    fn reach(&mut self, slot: usize) -> Result<(), AllocError>
        ensures there { OnOk result (slot < length self.new.slots.items) }
        ensures same { (at : ℕ) → slot_at self.new at ≡ slot_at self.old at }
    {
        while self.slots.len() <= slot {
            self.slots.push(None)?;
        }
        Ok(())
    }
}

//! Modules in ascending order of address.

ghost use Rattle.std.specs.Prelude.{◌≡◌, ◌<◌, ◌≤◌, ◌⊎◌, ◌+◌, ◌^◌, ℕ, [], length, None, OnSome};
ghost use Rattle.std.specs.Prelude.{IfSome, MatchResult, position, insert, remove, map};
ghost use Rattle.std.specs.Prelude.{slice_index_or};
ghost use Rattle.addr_table.specs.Steps.{counted, bits};
ghost use Rattle.addr_table.specs.Module.{high_of};
ghost use Rattle.module_map.specs.World.{is_named, holds, start_of, end_of, moved_to, AreRising};
ghost use Rattle.module_map.specs.Listing.{list_item};
ghost use Rattle.module_map.specs.Private.Serials.{NumberedModule, loaded_of};
ghost use Rattle.module_map.specs.Private.Rising.{CountsStarted, IsClear, Overlaps, IsOnly};
ghost use Rattle.module_map.specs.Private.Rising.{IsNext, relocated, rebased};

use crate::faults::Extent;
use crate::listing::Listing;
use crate::loaded_module::LoadedModule;
use addr_table::Steps;
use std::alloc::{AllocError, Global};
use std::marker::Model;

/// Modules in ascending order of address, with distinct names.
#[derive(Drop)]
pub struct SortedModules {
    list: Vec<LoadedModule>,
}

impl Model for SortedModules {
    ghost use Rattle.std.specs.Prelude.{List};
    ghost use Rattle.module_map.specs.Private.Serials.{NumberedModule};
    ghost use Rattle.module_map.specs.Private.Rising.{AreRising};

    ghost Value = { List NumberedModule };

    ghost view = { λ s. s.list.items };

    ghost invariant = { λ s. AreRising s.list.items };
}

/// Moves a module to another index by rotating the modules between the two indexes.
fn rotate(list: &mut [LoadedModule], own: usize, at: usize)
    requires own { own < length list.old }
    requires at { at ≤ length list.old }
    ensures { (d : NumberedModule) →
        list.new ≡ relocated list.old own at (slice_index_or list.old own d) }
{
    if at <= own {
        list[at..own + 1].rotate_right(1);
    } else {
        list[own..at].rotate_left(1);
    }
}

/// Returns the first index at or after `from` that is not `own`.
fn next_index(from: usize, own: usize, len: usize) -> usize
    requires { from ≤ len }
    ensures { IsNext own len from result }
{
    if from == own && from < len {
        return from + 1;
    }
    from
}

impl SortedModules {
    pub fn new(alloc: Global) -> SortedModules
        ensures { result ≡ [] }
    {
        SortedModules {
            list: Vec::new(alloc),
        }
    }

    pub fn len(&self) -> usize
        ensures { result ≡ length self.now }
    {
        self.list.len()
    }

    /// Returns the module at an index.
    pub fn loaded_at(&self, at: usize) -> &LoadedModule
        requires { at < length self.now }
        ensures { result.now ≡ slice_index_or self.now at result.now }
    {
        &self.list[at]
    }

    /// Returns the index of the first module with a name.
    fn first_of(&self, name: &str) -> Option<usize>
        ensures { result ≡ position (λ h. is_named name.now h.loaded) self.now }
    {
        self.list.iter().position(|loaded| loaded.is_named(name))
    }

    /// Returns the index of the module with a name.
    pub fn position(&self, name: &str) -> Option<usize>
        ensures place { result ≡ position (λ h. is_named name.now h.loaded) self.now }
        ensures only { IfSome result (IsOnly self.now name.now) }
    {
        // Using a field gives the prover the invariant of the type.
        let _ = &self.list;
        self.first_of(name)
    }

    /// Returns an iterator over the modules.
    pub fn list(&self) -> Listing<'_>
        ensures modules { result ≡ map (λ h. list_item h.loaded) self.now }
        ensures rising { AreRising (map loaded_of self.now) }
    {
        Listing::new(self.list.as_slice())
    }

    /// Returns the first address of the module at an index.
    fn start(&self, at: usize) -> u64
        requires { at < length self.now }
        ensures { (d : NumberedModule) → result ≡ start_of (slice_index_or self.now at d).loaded }
    {
        self.list[at].extent().low
    }

    /// Returns the end (exclusive) of the module at an index.
    fn end(&self, at: usize) -> u64
        requires { at < length self.now }
        ensures { (d : NumberedModule) → result ≡ end_of (slice_index_or self.now at d).loaded }
    {
        self.list[at].extent().high
    }

    /// Returns the number of modules that start at or before an address, by binary search.
    fn count_started(&self, address: u64, steps: &mut Steps) -> usize
        ensures started { CountsStarted self.now address result }
        ensures counted { (n : ℕ) × (n ≤ bits (length self.now)) × ((result ≡ 0) ⊎ (1 ≤ n))
            × (steps.new ≡ counted n steps.old) }
    {
        let mut low = 0;
        let mut high = self.list.len();
        while low < high {
            let middle = low + (high - low) / 2;
            if steps.reached(address, self.start(middle)) {
                low = middle + 1;
            } else {
                high = middle;
            }
        }
        low
    }

    /// Returns the index of the module that contains an address: the last one that starts at or
    /// before the address, if the address is before its end.
    pub fn locate(&self, address: u64, steps: &mut Steps) -> Option<usize>
        ensures place { result ≡ position (λ h. holds address h.loaded) self.now }
        ensures counted { (n : ℕ) × (n ≤ bits (length self.now) + 1) × OnSome result (2 ≤ n)
            × (steps.new ≡ counted n steps.old) }
    {
        // Using a field gives the prover the invariant of the type.
        let _ = &self.list;
        let started = self.count_started(address, steps);
        if started == 0 {
            return None;
        }
        let at = started - 1;
        if steps.reached(address, self.end(at)) {
            return None;
        }
        Some(at)
    }

    /// Returns the index at which a module with an extent can be inserted, or the index of the
    /// lowest module that the extent overlaps. Ignores the module at index `own`, if there is one.
    pub fn free_index(&self, extent: Extent, own: usize) -> Result<usize, usize>
        requires { extent.low < extent.high }
        ensures { MatchResult result (IsClear self.now own extent.low extent.high)
            (Overlaps self.now own extent.low extent.high) }
    {
        // Using a field gives the prover the invariant of the type.
        let _ = &self.list;
        let len = self.len();
        let mut uncounted = Steps::default();
        let started = self.count_started(extent.low, &mut uncounted);
        if started > 0 && started - 1 != own && self.end(started - 1) > extent.low {
            return Err(started - 1);
        }
        let next = next_index(started, own, len);
        if next < len && self.start(next) < extent.high {
            return Err(next);
        }
        Ok(started)
    }

    /// Inserts a module at an index where its extent is free. Returns an error if memory runs out.
    pub fn insert(&mut self, at: usize, loaded: LoadedModule) -> Result<(), AllocError>
        requires clear { IsClear self.old (length self.old) (start_of loaded.loaded)
            (end_of loaded.loaded) at }
        requires new { position (λ h. is_named loaded.loaded.name h.loaded) self.old ≡ None }
        ensures { MatchResult result (λ _. self.new ≡ insert self.old at loaded)
            (λ _. self.new ≡ self.old) }
    {
        let _extent = loaded.extent();
        self.list.insert(at, loaded)?;
        Ok(())
    }

    /// Removes the module at an index.
    pub fn remove(&mut self, at: usize)
        requires { at < length self.old }
        ensures { self.new ≡ remove self.old at }
    {
        let _loaded = self.list.remove(at);
    }

    /// Moves the module at index `own` to another base and to index `at`, where its extent is free,
    /// by rotating the modules between the two indexes.
    pub fn relocate(&mut self, own: usize, at: usize, base: u64)
        requires within { own < length self.old }
        requires fits { (d : NumberedModule) →
            base + high_of (slice_index_or self.old own d).loaded.bytes < 2 ^ 64 }
        requires clear { (d : NumberedModule) →
            let m = moved_to base (slice_index_or self.old own d).loaded in
            IsClear self.old own (start_of m) (end_of m) at }
        ensures { (d : NumberedModule) →
            self.new ≡ relocated self.old own at (rebased base (slice_index_or self.old own d)) }
    {
        let loaded = &mut self.list[own];
        loaded.move_to(base);
        rotate(self.list.as_mut_slice(), own, at);
    }
}

//! A module at its base.

ghost use Rattle.std.specs.Prelude.{◌≡◌, ◌<◌, ◌≤◌, ◌+◌, ◌-◌, ◌^◌, ℕ, length, IfOk};
ghost use Rattle.std.specs.Prelude.{MatchOption};
ghost use Rattle.addr_table.specs.Module.{place_in, segments_in, low_of, high_of};
ghost use Rattle.addr_table.specs.Steps.{counted, bits};
ghost use Rattle.module_map.specs.World.{is_named, start_of, end_of, moved_to};
ghost use Rattle.module_map.specs.Changes.{IsExtentOf};

use crate::cache::CacheKey;
use crate::faults::Extent;
use addr_table::{Module, Place, Steps};
use std::alloc::{AllocError, Global};
use std::marker::Model;

/// A module at its base, with the serial number of its load.
#[derive(Drop)]
pub struct LoadedModule {
    serial: u64,
    name: String,
    base: u64,
    extent: Extent,
    object: Box<Module>,
}

impl Model for LoadedModule {
    ghost use Rattle.std.specs.Prelude.{◌≡◌, ◌+◌, ◌<◌, ℕ, string_bytes};
    ghost use Rattle.addr_table.specs.Module.{low_of, high_of};
    ghost use Rattle.module_map.specs.Private.Serials.{NumberedModule};

    ghost Value = { NumberedModule };

    ghost view = { λ m. record {
      serial = m.serial;
      loaded = record { name = string_bytes m.name; base = m.base; bytes = m.object.value };
    } };

    ghost invariant = { λ m. (m.extent.low ≡ m.base + low_of m.object.value)
        × (m.extent.high ≡ m.base + high_of m.object.value)
        × (low_of m.object.value < high_of m.object.value) };
}

/// Returns the extent of an object at a base.
pub fn extent_of(object: &Module, base: u64) -> Extent
    requires { base + high_of object.now < 2 ^ 64 }
    ensures low { result.low ≡ base + low_of object.now }
    ensures high { result.high ≡ base + high_of object.now }
    ensures order { result.low < result.high }
{
    Extent {
        low: base + object.low(),
        high: base + object.high(),
    }
}

impl LoadedModule {
    /// Creates a module from its parts. Returns an error if memory runs out.
    pub fn new(
        alloc: Global,
        serial: u64,
        name: &str,
        base: u64,
        object: Module,
    ) -> Result<LoadedModule, AllocError>
        requires { base + high_of object < 2 ^ 64 }
        ensures { IfOk result (λ m. m ≡ record {
          serial = serial;
          loaded = record { name = name.now; base = base; bytes = object };
        }) }
    {
        let extent = extent_of(&object, base);
        let name = String::from_str(alloc, name)?;
        let Ok(object) = Box::new(alloc, object) else {
            return Err(AllocError);
        };
        Ok(LoadedModule {
            serial,
            name,
            base,
            extent,
            object,
        })
    }

    pub fn name(&self) -> &str
        ensures { result.now ≡ self.now.loaded.name }
    {
        self.name.as_str()
    }

    pub fn base(&self) -> u64
        ensures value { result ≡ self.now.loaded.base }
    {
        self.base
    }

    /// Returns the extent of the module, which is nonempty.
    pub fn extent(&self) -> Extent
        ensures value { IsExtentOf result self.now.loaded }
        ensures order { start_of self.now.loaded < end_of self.now.loaded }
    {
        self.extent
    }

    pub fn is_named(&self, name: &str) -> bool
        ensures { result ≡ is_named name.now self.now.loaded }
    {
        self.name.as_str() == name
    }

    /// Returns the cache key of an address.
    pub fn key(&self, address: u64) -> CacheKey
        requires { start_of self.now.loaded ≤ address }
        ensures serial { result.serial ≡ self.now.serial }
        ensures link { result.link ≡ address - self.now.loaded.base }
    {
        CacheKey {
            serial: self.serial,
            link: address - self.base,
        }
    }

    /// Returns the extent at another base, or `None` if its end would exceed 2^64-1.
    pub fn extent_at(&self, base: u64) -> Option<Extent>
        ensures { let m = moved_to base self.now.loaded in
            MatchOption result (2 ^ 64 ≤ end_of m)
            (λ extent. IsExtentOf extent m × (start_of m < end_of m) × (end_of m < 2 ^ 64)) }
    {
        if base > u64::MAX - self.object.high() {
            return None;
        }
        Some(extent_of(&self.object, base))
    }

    /// Moves the module to another base.
    pub fn move_to(&mut self, base: u64)
        requires { base + high_of self.old.loaded.bytes < 2 ^ 64 }
        ensures { self.new ≡ record self.old { loaded = moved_to base self.old.loaded } }
    {
        self.extent = extent_of(&self.object, base);
        self.base = base;
    }

    /// Returns the place of a link address, if any.
    pub fn find(&self, link: u64, steps: &mut Steps) -> Option<Place>
        ensures place { result ≡ place_in self.now.loaded.bytes link }
        ensures counted { (n : ℕ) × (n ≤ bits (length (segments_in self.now.loaded.bytes)) + 1)
            × (steps.new ≡ counted n steps.old) }
    {
        self.object.find(link, steps)
    }

    pub fn object(&self) -> &Module
        ensures { result.now ≡ self.now.loaded.bytes }
    {
        &self.object
    }
}

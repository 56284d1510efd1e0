//! The loaded modules.

ghost use Rattle.std.specs.Prelude.{◌≡◌, ◌≤◌, ◌⊎◌, Bool, true, false, Some, None};
ghost use Rattle.std.specs.Prelude.{length, IfOk, IfErr, MatchResult};
ghost use Rattle.module_map.specs.World.{Loaded, no_modules, AreRising, HoldOnce};
ghost use Rattle.module_map.specs.Changes.{is_taken, is_full, place_fault, with_module};
ghost use Rattle.module_map.specs.Changes.{IsExtentOf, Loads, Unloads, Moves};
ghost use Rattle.module_map.specs.Answers.{asked as asked_of, frames_at};
ghost use Rattle.module_map.specs.Counts.{TakesCompares, CachesAnswer, decoded_after};
ghost use Rattle.module_map.specs.Listing.{listing};

use crate::answer::Answer;
use crate::asked::{Asked, Found};
use crate::cache::Cache;
use crate::cached_lookup::look_up;
use crate::faults::{Extent, MapFault, refusal};
use crate::listing::Listing;
use crate::loaded_module::{LoadedModule, extent_of};
use crate::sorted::SortedModules;
use addr_table::{Module, Steps};
use std::alloc::Global;
use std::marker::Model;

/// The maximum number of loaded modules.
const MOST_MODULES: usize = 4096;

/// The loaded modules and a cache of answers.
#[derive(Drop)]
pub struct Modules {
    alloc: Global,
    pub(crate) sorted: SortedModules,
    loads: u64,
    cache: Cache,
    steps: Steps,
}

impl Model for Modules {
    ghost use Rattle.std.specs.Prelude.{map, length};
    ghost use Rattle.module_map.specs.Counts.{ModuleMap};
    ghost use Rattle.module_map.specs.Private.Serials.{AreSound, loaded_of};

    ghost Value = { ModuleMap };

    ghost view = { λ m. record {
      world = record { modules = map loaded_of m.sorted; loads = m.loads };
      cached = length m.cache.entries;
      capacity = m.cache.capacity;
      compares = m.steps.compares;
      decoded = m.steps.decoded;
    } };

    ghost invariant = { λ m. AreSound m.sorted m.loads m.cache.entries };
}

impl Modules {
    /// Creates an empty list of modules with a cache of at most `cache_entries` answers; 0 disables
    /// the cache. Returns an error if memory runs out.
    pub fn new(alloc: Global, cache_entries: usize) -> Result<Modules, MapFault>
        ensures modules { IfOk result (λ m. m ≡ record {
          world = no_modules;
          cached = 0;
          capacity = cache_entries;
          compares = 0;
          decoded = 0;
        }) }
        ensures memory { IfErr result (λ fault. fault ≡ MapFault.Memory) }
    {
        let Ok(cache) = Cache::new(alloc, cache_entries) else {
            return Err(MapFault::Memory);
        };
        Ok(Modules {
            alloc,
            sorted: SortedModules::new(alloc),
            loads: 0,
            cache,
            steps: Steps::default(),
        })
    }

    /// Returns the counters: the comparisons of the last ask (0 before the first ask), and the
    /// bytes decoded by all loads. Loads that were refused after decoding are included.
    pub fn steps(&self) -> Steps
        ensures { (result.compares ≡ self.now.compares) × (result.decoded ≡ self.now.decoded) }
    {
        self.steps // comparisons of the last ask, bytes of all loads
    }

    /// Returns the number of cached answers and the capacity of the cache.
    pub fn cached(&self) -> (usize, usize)
        ensures counts { (result.0 ≡ self.now.cached) × (result.1 ≡ self.now.capacity) }
        ensures within { result.0 ≤ result.1 }
    {
        (self.cache.len(), self.cache.capacity())
    }

    fn is_taken(&self, name: &str) -> bool
        ensures { result ≡ is_taken name.now self.now.world }
    {
        self.sorted.position(name).is_some()
    }

    fn is_full(&self) -> bool
        ensures { result ≡ is_full self.now.world }
    {
        self.sorted.len() >= MOST_MODULES || self.loads == u64::MAX
    }

    /// Loads an object under a name, with its link addresses moved up by `base`. Returns the first
    /// fault in the order of `MapFault`, but `Memory` may replace any outcome after `Full`.
    pub fn load(&mut self, name: &str, base: u64, bytes: Vec<u8>) -> Result<Extent, MapFault>
        ensures step { (short : Bool) × Loads self.old.world
            (record { name = name.now; base = base; bytes = bytes.items }) short result
            self.new.world }
        ensures cached { (self.new.cached ≡ self.old.cached)
            × (self.new.capacity ≡ self.old.capacity) }
        ensures compares { self.new.compares ≡ self.old.compares }
        ensures decoded { self.new.decoded ≡
            decoded_after self.old.decoded (length bytes.items) result }
    {
        if self.is_taken(name) {
            return Err(MapFault::NameTaken);
        }
        if self.is_full() {
            return Err(MapFault::Full);
        }
        self.steps.decoded = self.steps.decoded.saturating_add(bytes.len() as u64);
        match Module::decode(self.alloc, bytes) {
            Ok(object) => self.add(name, base, object),
            Err((_, fault)) => Err(refusal(fault)),
        }
    }

    /// Adds an object under a new name, if its addresses are free and memory allows.
    fn add(&mut self, name: &str, base: u64, object: Module) -> Result<Extent, MapFault>
        requires new { is_taken name.now self.old.world ≡ false }
        requires loads { is_full self.old.world ≡ false }
        ensures { let m : Loaded = record { name = name.now; base = base; bytes = object } in
            MatchResult result
            (λ extent. (place_fault m self.old.world.modules ≡ None) × IsExtentOf extent m
            × (self.new ≡ record self.old { world = with_module self.old.world m }))
            (λ fault. ((fault ≡ MapFault.Memory)
            ⊎ (place_fault m self.old.world.modules ≡ Some fault)) × (self.new ≡ self.old)) }
    {
        if base > u64::MAX - object.high() {
            return Err(MapFault::Range);
        }
        let extent = extent_of(&object, base);
        let at = match self.sorted.free_index(extent, self.sorted.len()) {
            Ok(at) => at,
            Err(other) => return Err(MapFault::Overlap(other)),
        };
        let Ok(loaded) = LoadedModule::new(self.alloc, self.loads, name, base, object) else {
            return Err(MapFault::Memory);
        };
        let Ok(()) = self.sorted.insert(at, loaded) else {
            return Err(MapFault::Memory);
        };
        self.loads += 1;
        Ok(extent)
    }

    /// Unloads the module with a name. Its cached answers are never asked for again.
    pub fn unload(&mut self, name: &str) -> Result<(), MapFault>
        ensures step { Unloads self.old.world name.now result self.new.world }
        ensures counts { self.new ≡ record self.old { world = self.new.world } }
    {
        let Some(at) = self.sorted.position(name) else {
            return Err(MapFault::NoModule);
        };
        self.sorted.remove(at);
        Ok(())
    }

    /// Moves the module with a name, or returns the reason for refusing. Allocates no memory.
    pub fn move_to(&mut self, name: &str, base: u64) -> Result<Extent, MapFault>
        ensures step { Moves self.old.world name.now base result self.new.world }
        ensures counts { self.new ≡ record self.old { world = self.new.world } }
    {
        let Some(own) = self.sorted.position(name) else {
            return Err(MapFault::NoModule);
        };
        let Some(extent) = self.sorted.loaded_at(own).extent_at(base) else {
            return Err(MapFault::Range);
        };
        match self.sorted.free_index(extent, own) {
            Err(other) => Err(MapFault::Overlap(other)),
            Ok(at) => {
                self.sorted.relocate(own, at, base);
                Ok(extent)
            }
        }
    }

    /// Looks up an address. Only the cache allocates memory, and the lookup works without it.
    pub fn ask(&mut self, address: u64) -> Asked
        ensures world { self.new.world ≡ self.old.world }
        ensures found { result ≡ asked_of self.old.world address }
        ensures cached { CachesAnswer self.old self.new }
        ensures compares { TakesCompares self.old.world address self.new.compares }
        ensures decoded { self.new.decoded ≡ self.old.decoded }
    {
        self.steps.compares = 0;
        let Some(at) = self.sorted.locate(address, &mut self.steps) else {
            return Asked {
                address,
                found: None,
            };
        };
        let place = look_up(&self.sorted, &mut self.cache, &mut self.steps, at, address);
        Asked {
            address,
            found: Some(Found { at, place }),
        }
    }

    /// Returns the answer for an ask, if no module was loaded, unloaded or moved since. For any
    /// other `Asked`, the answer has some frames or none.
    pub fn answer(&self, asked: Asked) -> Answer<'_>
        ensures address { result.address ≡ asked.address }
        ensures frames { asked ≡ asked_of self.now.world asked.address →
            result.frames ≡ frames_at self.now.world asked.address }
    {
        let len = self.sorted.len();
        let Some(found) = asked.found else {
            return Answer::none(asked.address);
        };
        let Some(place) = found.place else {
            return Answer::none(asked.address);
        };
        if found.at >= len {
            return Answer::none(asked.address);
        }
        Answer::new(
            asked.address,
            self.sorted.loaded_at(found.at).object(),
            place,
        )
    }

    /// Returns the name, the extent and the base of each module, in ascending order of address. No
    /// two modules have the same name or share an address.
    pub fn list(&self) -> Listing<'_>
        ensures modules { result ≡ listing self.now.world }
        ensures rising { AreRising self.now.world.modules }
        ensures one { HoldOnce self.now.world.modules }
        ensures few { length self.now.world.modules ≤ 4096 }
    {
        self.sorted.list()
    }
}

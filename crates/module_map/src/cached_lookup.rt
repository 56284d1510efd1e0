//! Looks up an address in a module, through the cache.

ghost use Rattle.std.specs.Prelude.{◌≡◌, ◌<◌, ◌≤◌, ◌⊎◌, ◌+◌, ◌-◌, ℕ, length, Contains};
ghost use Rattle.std.specs.Prelude.{slice_index_or};
ghost use Rattle.addr_table.specs.Module.{place_in, segments_in};
ghost use Rattle.addr_table.specs.Steps.{counted, bits};
ghost use Rattle.module_map.specs.World.{start_of};
ghost use Rattle.module_map.specs.Private.Serials.{NumberedModule, CacheEntry, IsAnswerOf};

use crate::cache::Cache;
use crate::sorted::SortedModules;
use addr_table::{Place, Steps};

/// Returns the place of an address in the module that contains it. If the cache has no answer,
/// searches the module and caches the result if memory allows.
pub fn look_up(
    sorted: &SortedModules,
    cache: &mut Cache,
    steps: &mut Steps,
    at: usize,
    address: u64,
) -> Option<Place>
    requires within { at < length sorted.now }
    requires starts { (d : NumberedModule) →
        start_of (slice_index_or sorted.now at d).loaded ≤ address }
    requires right { (h : NumberedModule) (e : CacheEntry) → Contains sorted.now h →
        Contains cache.old.entries e → h.serial ≡ e.0.serial →
        e.1 ≡ place_in h.loaded.bytes e.0.link }
    ensures place { (d : NumberedModule) → let m = (slice_index_or sorted.now at d).loaded in
        result ≡ place_in m.bytes (address - m.base) }
    ensures cached { (d : NumberedModule) (e : CacheEntry) → Contains cache.new.entries e →
        Contains cache.old.entries e ⊎ IsAnswerOf (slice_index_or sorted.now at d) e }
    ensures grows { (length cache.old.entries ≤ length cache.new.entries)
        × (length cache.new.entries ≤ length cache.old.entries + 1) }
    ensures capacity { (length cache.new.entries ≤ cache.new.capacity)
        × (cache.new.capacity ≡ cache.old.capacity) }
    ensures counted { (n : ℕ) × ((d : NumberedModule) →
        n ≤ bits (length (segments_in (slice_index_or sorted.now at d).loaded.bytes)) + 1)
        × (steps.new ≡ counted n steps.old) }
{
    let loaded = sorted.loaded_at(at);
    let key = loaded.key(address);
    if let Some(place) = cache.get(key) {
        return place;
    }
    let place = loaded.find(key.link, steps);
    cache.put(key, place);
    place
}

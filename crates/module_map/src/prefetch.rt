//! Reads the data for addresses ahead of their asks.

ghost use Rattle.std.specs.Prelude.{◌≤◌, IfSome};
ghost use Rattle.module_map.specs.World.{start_of};

use crate::loaded_module::LoadedModule;
use crate::modules::Modules;
use addr_table::{Module, Place, Steps};

/// The maximum number of addresses whose data is read ahead at once.
pub const PREFETCHED: usize = 8;

impl Modules {
    /// Returns the module that contains an address.
    fn holder(&self, address: u64) -> Option<&LoadedModule>
        ensures { IfSome result (λ m. start_of m.now.loaded ≤ address) }
    {
        let at = self.sorted.locate(address, &mut Steps::default())?;
        Some(self.sorted.loaded_at(at))
    }

    /// Returns the object that contains an address, and the link address.
    fn object_at(&self, address: u64) -> Option<(&Module, u64)> {
        let loaded = self.holder(address)?;
        Some((loaded.object(), loaded.key(address).link))
    }

    /// Returns the object that contains an address, and the place in it.
    fn place_at(&self, address: u64) -> Option<(&Module, Place)> {
        let (object, link) = self.object_at(address)?;
        let place = object.find(link, &mut Steps::default())?;
        Some((object, place))
    }

    /// Returns the places of the first addresses.
    fn places_at(&self, addresses: &[u64]) -> [Option<(&Module, Place)>; PREFETCHED] {
        let mut places = [None; PREFETCHED];
        for index in 0..addresses.len().min(PREFETCHED) {
            places[index] = self.place_at(addresses[index]);
        }
        places
    }

    /// Reads what the searches for addresses start with.
    fn touch_searches(&self, addresses: &[u64]) -> bool {
        let mut touched = false;
        for address in addresses {
            if let Some((object, link)) = self.object_at(*address) {
                touched ^= object.touch_search(link);
            }
        }
        touched
    }

    /// Reads what the answers for the first addresses are made of, so that the processor fetches
    /// the data of all of them at once: rows and, if `frames` is set, scopes and names. Returns a
    /// value that depends on the data, because the compiler omits reads whose result is not used.
    pub fn prefetch(&self, addresses: &[u64], frames: bool) -> bool {
        let searches = self.touch_searches(addresses);
        let places = self.places_at(addresses);
        let found = touch_places(&places);
        if !frames {
            return searches ^ found;
        }
        searches ^ found ^ touch_scopes(&places)
    }
}

/// Reads the rows and the innermost scopes of places.
fn touch_places(places: &[Option<(&Module, Place)>]) -> bool {
    let mut touched = false;
    for place in places {
        if let Some((object, place)) = place {
            touched ^= object.touch_place(*place);
        }
    }
    touched
}

/// Reads ranges and names of the scopes at places.
fn touch_scopes(places: &[Option<(&Module, Place)>]) -> bool {
    let mut touched = false;
    for place in places {
        if let Some((object, place)) = place {
            touched ^= object.touch_scopes(*place);
        }
    }
    touched
}

//! Iteration over the modules.

ghost use Rattle.std.specs.Prelude.{◌≡◌, map};
ghost use Rattle.module_map.specs.Listing.{list_item};

use crate::faults::Extent;
use crate::loaded_module::LoadedModule;
use std::marker::Model;

/// An iterator over the name, the extent and the base of each module, in ascending order of
/// address.
#[derive(Drop)]
pub struct Listing<'a> {
    rest: &'a [LoadedModule],
}

impl<'a> Model for Listing<'a> {
    ghost use Rattle.std.specs.Prelude.{List, map};
    ghost use Rattle.module_map.specs.Listing.{Listed, list_item};

    ghost Value = { List Listed };

    ghost view = { λ l. map (λ h. list_item h.loaded) l.rest.now };
}

impl<'a> Listing<'a> {
    pub(crate) fn new(entries: &'a [LoadedModule]) -> Listing<'a>
        ensures { result ≡ map (λ h. list_item h.loaded) entries.entry.now }
    {
        Listing { rest: entries }
    }
}

impl<'a> Iterator for Listing<'a> {
    ghost use Rattle.std.specs.Prelude.{List};
    ghost use Rattle.std.specs.Iterator.{YieldsFirstBy, item_count};
    ghost use Rattle.module_map.specs.Listing.{item_data};

    type Item = (&'a str, Extent, u64);

    ghost next_gives = { YieldsFirstBy item_data (λ s. s) };

    ghost remaining = { item_count (λ s. s) };

    fn next(&mut self) -> Option<(&'a str, Extent, u64)> {
        let rest = self.rest;
        let loaded = rest.first()?;
        self.rest = &rest[1..];
        Some((loaded.name(), loaded.extent(), loaded.base()))
    }
}

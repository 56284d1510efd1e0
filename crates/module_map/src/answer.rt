//! The answer for an address.

ghost use Rattle.std.specs.Prelude.{◌≡◌, [], None, Some, option_map};
ghost use Rattle.std.specs.List.{join_with_byte};
ghost use Rattle.addr_table.specs.Module.{frames_in};
ghost use Rattle.addr_table.specs.Frames.{first_site};

use addr_table::{Frames, Module, Place, Site};
use std::marker::Model;

/// An address, with the module that contains it and its place there, if any.
#[derive(Drop)]
pub struct Answer<'a> {
    address: u64,
    found: Option<(&'a Module, Place)>,
}

impl<'a> Model for Answer<'a> {
    ghost use Rattle.std.specs.Prelude.{[]};
    ghost use Rattle.std.specs.Option.{option_map_or};
    ghost use Rattle.addr_table.specs.Module.{frames_in};
    ghost use Rattle.module_map.specs.Answers.{Answered};

    ghost Value = { Answered };

    ghost view = { λ a. record {
      address = a.address;
      frames = option_map_or (λ f. frames_in f.0.now f.1) a.found [];
    } };
}

impl<'a> Answer<'a> {
    /// Returns an answer without frames.
    pub(crate) fn none(address: u64) -> Answer<'a>
        ensures { result ≡ record { address = address; frames = [] } }
    {
        Answer {
            address,
            found: None,
        }
    }

    pub(crate) fn new(address: u64, object: &'a Module, place: Place) -> Answer<'a>
        ensures { result ≡ record {
          address = address;
          frames = frames_in object.entry.now place;
        } }
    {
        Answer {
            address,
            found: Some((object, place)),
        }
    }

    /// Returns the address that was asked.
    pub fn address(&self) -> u64
        ensures { result ≡ self.now.address }
    {
        self.address
    }

    /// Returns the frames of the address, innermost first. There are none if the address is
    /// unknown.
    pub fn frames(&self) -> Frames<'a>
        ensures { result ≡ self.now.frames }
    {
        match self.found {
            None => Frames::none(),
            Some((object, place)) => object.frames(place),
        }
    }

    /// Returns the source position of the innermost frame, without a search for the function. The
    /// path is `None` and the line is 0 if there are no frames.
    pub fn site(&self) -> Site<'a>
        ensures { record { path = option_map (join_with_byte 47) result.path; line = result.line }
            ≡ first_site self.now.frames }
    {
        match self.found {
            None => Site {
                path: None,
                line: 0,
            },
            Some((object, place)) => object.site(place),
        }
    }
}

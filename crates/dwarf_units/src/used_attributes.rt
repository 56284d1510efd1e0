//! The used attributes of an entry, by name (DWARF 5, 2.2).

ghost use Rattle.std.specs.Prelude.{◌≡◌, ◌∷◌, []};
ghost use Rattle.dwarf_units.specs.{Private.Names.named_attribute, Used.{Used, used_among}};
ghost use Rattle.dwarf_units.specs.{Private.Used.with_used, Used.value_named};

use crate::attributes::AttributeValue;
use crate::used_name::{SLOTS, UsedName};
use std::marker::Model;

/// The values of the used attributes of an entry by name.
pub trait EntryValues {
    ghost used: { Self → Used };

    /// Returns the value of an attribute, if the entry has it.
    fn value(&self, name: UsedName) -> Option<AttributeValue>
        ensures { result ≡ value_named name (used self.now) };
}

/// The values of the used attributes of an entry. The first of two values counts.
#[derive(Drop)]
pub struct UsedAttributes {
    /// Whether each slot has a value.
    has_value: [bool; SLOTS],
    values: [AttributeValue; SLOTS],
}

impl Model for UsedAttributes {
    ghost use Rattle.dwarf_units.specs.{Private.Slots.in_slots, Used.Used};

    ghost Value = { Used };

    ghost view = { λ u. in_slots u.has_value u.values };
}

impl UsedAttributes {
    /// Creates an empty set of attributes.
    pub fn none() -> UsedAttributes
        ensures { result ≡ used_among [] }
    {
        UsedAttributes {
            has_value: [false; SLOTS],
            values: [AttributeValue { form: 0, number: 0 }; SLOTS],
        }
    }

    /// Removes all attributes.
    pub(crate) fn clear(&mut self)
        ensures { self.new ≡ used_among [] }
    {
        self.has_value = [false; SLOTS];
    }

    /// Adds an attribute. Has no effect if the entry already has an attribute of this name.
    #[tactic(auto, using(crate::proofs::SlotLaws::add_steps))]
    pub(crate) fn add(&mut self, name: UsedName, value: AttributeValue)
        ensures { self.new ≡ with_used self.old (named_attribute name value ∷ []) }
    {
        let slot = name.slot();
        if !self.has_value[slot] {
            self.has_value[slot] = true;
            self.values[slot] = value;
        }
    }
}

impl EntryValues for UsedAttributes {
    ghost used = { λ u. u };

    fn value(&self, name: UsedName) -> Option<AttributeValue> {
        let slot = name.slot();
        self.has_value[slot].then_some(self.values[slot])
    }
}

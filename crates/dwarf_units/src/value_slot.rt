//! The used attributes of entries whose attributes all have a fixed size (DWARF 5, 7.5.3). The
//! slots of a declaration say where its entries have the value of each.

ghost use Rattle.std.specs.Prelude.{◌≡◌, ℕ, List, IfSome, drop};
ghost use Rattle.dwarf_units.specs.Private.{FixedSizes.number_in, Slots.{AreSlots, slot_value}};
ghost use Rattle.dwarf_units.specs.declared.used_position.UsedValue.TheVariants as positions;

use crate::attributes::AttributeValue;
use crate::used_attributes::EntryValues;
use crate::used_name::{CALL_FILE_SLOT, ENTRY_SLOTS, UsedName};
use crate::used_position::{UsedPosition, UsedValue};
use dwarf_bytes::constants::DW_FORM_IMPLICIT_CONST;
use dwarf_bytes::{Cursor, Width};
use std::marker::Model;

/// The number of bytes that must follow the code of an entry so that its slots are read. They
/// include eight bytes at every offset of a slot, so that reading a slot needs no check.
pub(crate) const WINDOW: usize = 263;

/// Where an entry has the value of a used attribute: its form, its width, and its offset from the
/// first attribute. It takes three bytes, because every scope reads nine slots and every reference
/// four.
#[derive(Clone, Copy)]
pub(crate) struct ValueSlot {
    form: u8,
    width: Width,
    offset: u8,
}

/// The slots of the used attributes by their names.
#[derive(Clone, Copy)]
pub(crate) struct ValueSlots {
    pub(crate) slots: [Option<ValueSlot>; ENTRY_SLOTS],
    /// The call_file, if the declaration has it (DW_FORM_implicit_const).
    pub(crate) file: Option<u32>,
}

impl ValueSlot {
    /// Returns the slot of a value that starts `offset` bytes after the first attribute, or `None`
    /// if it does not fit.
    fn of(form: u64, offset: u16, width: Width) -> Option<ValueSlot>
        ensures { IfSome result (λ slot. (bytes : List ℕ) (first : ℕ)
            → slot_value (drop first bytes) slot
            ≡ record { form = form; number = number_in bytes first (positions.At offset width) }) }
    {
        Some(ValueSlot {
            form: u8::try_from(form).ok()?,
            width,
            offset: u8::try_from(offset).ok()?,
        })
    }

    /// Returns the value in the entry whose attributes start at `bytes`.
    // Inlined: called for each attribute of each scope and each reference.
    #[inline(always)]
    pub(crate) fn value(self, bytes: &[u8]) -> AttributeValue
        ensures { result ≡ slot_value bytes.now self }
    {
        let first = Cursor::new(bytes);
        let number = first.number_after(u16::from(self.offset), self.width);
        AttributeValue {
            form: u64::from(self.form),
            number: number.unwrap_or(0),
        }
    }
}

/// The used attributes of an entry. Each is read at its position when it is asked for.
#[derive(Drop)]
pub struct FixedSizeValues<'a> {
    /// The bytes of the unit from the first attribute on.
    pub(crate) bytes: &'a [u8],
    pub(crate) slots: &'a ValueSlots,
}

/// An entry whose attributes all have a fixed size.
#[derive(Drop)]
pub struct FixedSizeEntry<'a> {
    pub tag: u64,
    /// The offset after the entry.
    pub after: usize,
    pub values: FixedSizeValues<'a>,
}

impl<'a> Model for FixedSizeValues<'a> {
    ghost use Rattle.dwarf_units.specs.{Private.Slots.used_in, Used.Used};

    ghost Value = { Used };

    ghost view = { λ v. used_in v.slots.now v.bytes.now };
}

impl<'a> EntryValues for FixedSizeValues<'a> {
    ghost used = { λ u. u };

    #[inline(always)]
    fn value(&self, name: UsedName) -> Option<AttributeValue> {
        let slot = name.slot();
        if slot == CALL_FILE_SLOT {
            if let Some(file) = self.slots.file {
                return Some(AttributeValue {
                    form: DW_FORM_IMPLICIT_CONST,
                    number: u64::from(file),
                });
            }
        }
        let slot = (*self.slots.slots.get(slot)?)?;
        Some(slot.value(self.bytes))
    }
}

/// Returns the slots of all used attributes. Returns `None` if one has none or does not fit.
pub(crate) fn slots_of(used: &[UsedPosition]) -> Option<ValueSlots>
    ensures { IfSome result (AreSlots used.now) }
{
    let mut slots = ValueSlots {
        slots: [None; ENTRY_SLOTS],
        file: None,
    };
    // From the last position to the first, because the first position of a name counts.
    for index in (0..used.len()).rev() {
        let position = used[index];
        let slot = position.name.slot();
        if slot >= ENTRY_SLOTS {
            return None;
        }
        match position.value {
            UsedValue::Constant(number) => {
                if slot != CALL_FILE_SLOT || position.form != DW_FORM_IMPLICIT_CONST {
                    return None;
                }
                slots.file = Some(u32::try_from(number).ok()?);
            }
            UsedValue::At(offset, width) => {
                slots.slots[slot] = Some(ValueSlot::of(position.form, offset, width)?);
                if slot == CALL_FILE_SLOT {
                    slots.file = None;
                }
            }
        }
    }
    Some(slots)
}

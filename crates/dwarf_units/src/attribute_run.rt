//! A run of attributes: attributes of a fixed size, and the attribute after them (DWARF 5, 7.5.3).

ghost use Rattle.std.specs.Prelude.{OnOk, [], ◌++◌, ◌∷◌, ◌≡◌};
ghost use Rattle.dwarf_bytes.specs.Refusals.{ReadsField, ReadsPlace};
ghost use Rattle.dwarf_units.specs.Private.Runs.{end_in, last_at, number_from, run_at, run_before};
ghost use Rattle.dwarf_units.specs.Private.{Runs.stretch_at, Used.used_after};
ghost use Rattle.dwarf_units.specs.StoredAttributes.{Fills, stored_attributes_at};

use crate::attributes::{AttributeValue, number_of, read_attribute};
use crate::fixed_sizes::unchecked_layout;
use crate::used_attributes::UsedAttributes;
use crate::used_name::UsedName;
use crate::used_position::UsedPosition;
use dwarf_bytes::{Cause, Content, Cursor, Format, ValueLayout};
use dwarf_forms::AttributeSpecification;
use std::alloc::AllocError;
use std::marker::Model;

/// Consecutive attributes of a fixed size.
#[derive(Drop)]
pub(crate) struct Stretch {
    /// Their size in bytes.
    pub(crate) len: u16,
    /// The positions of the used ones.
    pub(crate) used: Vec<UsedPosition>,
}

/// The attribute after a stretch.
#[derive(Clone, Copy)]
pub(crate) enum LastAttribute {
    /// An attribute whose value needs no check: its name if it is used, its form, and its layout.
    Unchecked(Option<UsedName>, u64, ValueLayout),
    /// Any other attribute.
    Checked(AttributeSpecification),
}

/// Attributes of a fixed size, and the attribute after them.
#[derive(Drop)]
pub(crate) struct AttributeRun {
    stretch: Stretch,
    last: LastAttribute,
}

impl Model for Stretch {
    ghost use Rattle.dwarf_units.specs.Private.Runs.{Stretch as StretchOf};

    ghost Value = { StretchOf };

    ghost view = { λ s. record { len = s.len; used = s.used.items } };
}

impl Model for AttributeRun {
    ghost use Rattle.dwarf_units.specs.Private.Runs.{Run};

    ghost Value = { Run };

    ghost view = { λ r. record { stretch = r.stretch; last = r.last } };
}

impl Stretch {
    /// Reads the attributes from the cursor on. Adds the used ones to `found` if `keep` is set.
    // Inlined: called for each entry.
    #[inline(always)]
    #[tactic(auto, using(crate::proofs::StoredReads::read_steps))]
    pub(crate) fn read(
        &self,
        keep: bool,
        cursor: &mut Cursor,
        found: &mut UsedAttributes,
    ) -> Result<(), Cause>
        ensures { Fills result found.new (λ bytes at. used_after found.old
            (stretch_at keep self.now bytes at)) cursor.old cursor.new }
    {
        let first = cursor.fork();
        cursor.block(u64::from(self.len))?;
        if !keep {
            return Ok(());
        }
        for position in &self.used {
            found.add(position.name, position.read(&first));
        }
        Ok(())
    }
}

impl AttributeRun {
    /// Ends a run with an attribute that starts `len` bytes after the start of the run. `used` has
    /// the positions of the attributes before it.
    pub(crate) fn of(
        len: u16,
        used: Vec<UsedPosition>,
        specification: &AttributeSpecification,
    ) -> AttributeRun
        ensures { result ≡ run_before len used.items specification.now }
    {
        let stretch = Stretch { len, used };
        let Some(layout) = unchecked_layout(specification) else {
            let last = LastAttribute::Checked(*specification);
            return AttributeRun { stretch, last };
        };
        let name = UsedName::of(specification.name);
        let last = LastAttribute::Unchecked(name, specification.form, layout);
        AttributeRun { stretch, last }
    }

    /// Reads the attributes from the cursor on. Adds the used ones to `found` if `keep` is set.
    // Inlined: called for each entry.
    #[inline(always)]
    #[tactic(auto, using(crate::proofs::StoredReads::read_steps))]
    pub(crate) fn read(
        &self,
        keep: bool,
        format: Format,
        cursor: &mut Cursor,
        found: &mut UsedAttributes,
    ) -> Result<(), Cause>
        ensures { Fills result found.new (λ bytes at. used_after found.old
            (run_at keep format self.now bytes at)) cursor.old cursor.new }
    {
        self.stretch.read(keep, cursor, found)?;
        self.last.read(keep, format, cursor, found)
    }
}

impl LastAttribute {
    /// Reads the attribute at the cursor. Adds it to `found` if it is used and `keep` is set.
    // Inlined: called for each entry.
    #[inline(always)]
    #[tactic(auto, using(crate::proofs::StoredReads::read_steps))]
    fn read(
        &self,
        keep: bool,
        format: Format,
        cursor: &mut Cursor,
        found: &mut UsedAttributes,
    ) -> Result<(), Cause>
        ensures { Fills result found.new (λ bytes at. used_after found.old
            (last_at keep format self.now bytes at)) cursor.old cursor.new }
    {
        match self {
            LastAttribute::Unchecked(Some(name), form, layout) if keep => {
                let number = read_number(*layout, format, cursor)?;
                let form = *form;
                found.add(*name, AttributeValue { form, number });
                Ok(())
            }
            LastAttribute::Unchecked(_, _, layout) => skip(*layout, format, cursor),
            LastAttribute::Checked(specification) => {
                let mut copy = cursor.fork();
                read_one(keep, format, specification, &mut copy, found)?;
                *cursor = copy;
                Ok(())
            }
        }
    }
}

/// Reads a value as a number. ULEB128 is tested first.
// Inlined: called for each entry that is re-read.
#[inline(always)]
#[tactic(auto, unfolding(dwarf_bytes::specs::Contents::content_at))]
fn read_number(layout: ValueLayout, format: Format, cursor: &mut Cursor) -> Result<u64, Cause>
    ensures { ReadsField (λ n. n) result (number_from layout format) cursor.old cursor.new }
{
    if let ValueLayout::Unsigned = layout {
        return Ok(cursor.uleb()?);
    }
    let mut copy = cursor.fork();
    let content = Content::read(layout, format, &mut copy)?;
    *cursor = copy;
    Ok(number_of(content, cursor.place()))
}

/// Skips a value. The most common layouts have an arm of their own.
// Inlined: called for each entry.
#[inline(always)]
#[tactic(auto, unfolding(dwarf_bytes::specs::Contents::content_at))]
fn skip(layout: ValueLayout, format: Format, cursor: &mut Cursor) -> Result<(), Cause>
    ensures { ReadsPlace result (end_in layout format) cursor.old cursor.new }
{
    match layout {
        ValueLayout::Unsigned => {
            cursor.uleb()?;
        }
        ValueLayout::LongBlock => {
            let len = cursor.uleb()?;
            cursor.block(len)?;
        }
        ValueLayout::Text => {
            cursor.cstr()?;
        }
        _ => {
            let mut copy = cursor.fork();
            Content::read(layout, format, &mut copy)?;
            *cursor = copy;
        }
    }
    Ok(())
}

/// Reads the attribute at the cursor. Adds it to `found` if it is used and `keep` is set.
// Not inlined: it is rare. Its callers pass a copy of the cursor, which need not be in memory.
#[cold]
#[inline(never)]
#[tactic(auto, using(crate::proofs::StoredReads::one_steps))]
pub(crate) fn read_one(
    keep: bool,
    format: Format,
    specification: &AttributeSpecification,
    cursor: &mut Cursor,
    found: &mut UsedAttributes,
) -> Result<(), Cause>
    ensures { Fills result found.new (λ bytes at. used_after found.old
        (stored_attributes_at keep format (specification.now ∷ []) bytes at))
        cursor.old cursor.new }
{
    let attribute = read_attribute(format, specification, cursor)?;
    if !keep {
        return Ok(());
    }
    if let Some(name) = UsedName::of(attribute.name) {
        found.add(name, attribute.value);
    }
    Ok(())
}

/// Appends a position. Allocates memory for no more than it needs.
pub(crate) fn push_position(
    used: &mut Vec<UsedPosition>,
    position: UsedPosition,
) -> Result<(), AllocError>
    ensures { OnOk result (used.new.items ≡ used.old.items ++ position ∷ []) }
{
    used.reserve_exact(1)?;
    used.push(position)?;
    Ok(())
}

//! Memoized attribute lists of a section, by their offsets (DWARF 5, 7.5.3).

ghost use Rattle.std.specs.{Prelude.{◌≡◌, false, IfOk, Ok}, List.{All, list_any}};
ghost use Rattle.std.specs.BTreeMap.{BTreeMap as Map};
ghost use Rattle.dwarf_forms.specs.Tables.{attributes_at, shares_name};
ghost use Rattle.abbreviation_memo.specs.{Lists.{IsListAt, list_at}, Private.Memo.AreMemos};
ghost use Rattle.abbreviation_memo.specs.{Private.Memo.IsMemo, Private.NameSets.{SetsStay, is_in}};

use crate::list_start::ListStart;
use crate::name_sets::{EMPTY, NameSets};
use dwarf_bytes::{Cause, Cursor};
use dwarf_forms::AttributeSpecification;
use std::alloc::{AllocError, Global};
use std::collections::BTreeMap;
use std::marker::Model;

/// The memo of the list at an offset.
#[derive(Clone, Copy)]
pub(crate) struct Memo {
    /// The set of the names of its attributes.
    names: u32,
    /// The offset after the two zeros that end it.
    after: usize,
}

/// The memoized attribute lists of a section. The rest of a memoized list is memoized too.
#[derive(Drop)]
pub struct MemoizedLists<'a> {
    section: &'a [u8],
    memos: BTreeMap<usize, Memo>,
    names: NameSets,
    /// The memoized offsets, in the order in which they were memoized.
    places: Vec<usize>,
}

impl<'a> Model for MemoizedLists<'a> {
    ghost use Rattle.std.specs.{Prelude.{ℕ, List}, List.All};
    ghost use Rattle.abbreviation_memo.specs.{Lists.IsListAt, Private.Memo.AreMemos};

    ghost Value = { List ℕ };

    ghost view = { λ l. l.section.now };

    ghost invariant = { λ l. AreMemos l.section.now l.memos l.names
        × All (IsListAt l.section.now) l.places.items };
}

impl<'a> MemoizedLists<'a> {
    pub fn new(alloc: Global, section: &'a [u8]) -> Result<MemoizedLists<'a>, AllocError>
        ensures { IfOk result (λ lists. lists ≡ section.now) }
    {
        Ok(MemoizedLists {
            section,
            memos: BTreeMap::new(alloc),
            names: NameSets::new(alloc)?,
            places: Vec::new(alloc),
        })
    }

    /// Returns the bytes of the section.
    pub fn section(&self) -> &'a [u8]
        ensures { result.now ≡ self.now }
    {
        self.section
    }

    /// Returns the offsets of the memoized lists. New ones are appended, and the rest of a list is
    /// before the list.
    pub fn places(&self) -> &[usize]
        ensures { All (IsListAt self.now) result.now }
    {
        &self.places
    }

    /// Returns whether the list at an offset is memoized.
    pub(crate) fn contains(&self, place: usize) -> bool {
        self.memos.contains_key(&place)
    }

    /// Moves the cursor after the list at its offset. Fails if the list is not memoized, or if it
    /// has the name of one of the attributes `own`.
    pub(crate) fn skip(
        &self,
        own: &[AttributeSpecification],
        cursor: &mut Cursor,
    ) -> Result<(), Cause>
        requires { cursor.old.bytes ≡ self.now }
        ensures list { IfOk result (λ _. attributes_at self.now cursor.old.place
            ≡ Ok (list_at self.now cursor.old.place, cursor.new.place)) }
        ensures apart { IfOk result (λ _. shares_name own.now
            (list_at self.now cursor.old.place) ≡ false) }
        ensures bytes { IfOk result (λ _. cursor.new.bytes ≡ cursor.old.bytes) }
    {
        let Some(memo) = self.memos.get(&cursor.place()) else {
            return Err(Cause::Short);
        };
        if has_any(&self.names, memo.names, own) {
            return Err(Cause::AttrTwice);
        }
        cursor.seek(memo.after)?;
        Ok(())
    }

    /// Memoizes the list at an offset. Fails if its rest is not memoized, or if the rest has the
    /// name of its first attribute.
    pub(crate) fn put(&mut self, alloc: Global, place: usize) -> Result<(), Cause>
        ensures { self.new ≡ self.old }
    {
        let memo = memo_at(alloc, self.section, &self.memos, &mut self.names, place)?;
        self.memos.insert(place, memo)?;
        self.places.push(place)?;
        Ok(())
    }
}

/// Returns the memo of the list at an offset.
fn memo_at(
    alloc: Global,
    section: &[u8],
    memos: &BTreeMap<usize, Memo>,
    names: &mut NameSets,
    place: usize,
) -> Result<Memo, Cause>
    requires { AreMemos section.now memos.now names.old }
    ensures memo { IfOk result (IsMemo section.now names.new place) }
    ensures stay { SetsStay names.old names.new }
{
    let start = ListStart::read(alloc, section, place)?;
    let after = start.rest;
    let Some(attribute) = start.attribute else {
        return Ok(Memo {
            names: EMPTY,
            after,
        });
    };
    let Some(rest) = memos.get(&after) else {
        return Err(Cause::Short);
    };
    if names.has(rest.names, attribute.name) {
        return Err(Cause::AttrTwice);
    }
    let names = names.with(rest.names, attribute.name)?;
    Ok(Memo {
        names,
        after: rest.after,
    })
}

/// Whether a set contains the name of one of the attributes.
fn has_any(names: &NameSets, set: u32, own: &[AttributeSpecification]) -> bool
    ensures { result ≡ list_any (λ attribute. is_in names.now set attribute.name) own.now }
{
    own.iter().any(|attribute| names.has(set, attribute.name))
}

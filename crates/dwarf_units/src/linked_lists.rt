//! The attribute lists that declarations share, with links that skip attributes of no bytes.

ghost use Rattle.std.specs.Prelude.{◌≡◌, IfOk, IfSome, IsOk, Ok};
ghost use Rattle.dwarf_forms.specs.Tables.{attributes_at};
ghost use Rattle.abbreviation_memo.specs.Lists.{IsListAt, StartsWith, list_at, rest_attributes};
ghost use Rattle.dwarf_units.specs.Private.Links.{AreLinks, IsLink, is_empty_unused};
ghost use Rattle.dwarf_units.specs.StoredAttributes.{Fills, stored_attributes_at};
ghost use Rattle.dwarf_units.specs.Private.Used.{used_after};

use crate::attribute_run::read_one;
use crate::attributes::is_used;
use crate::fixed_sizes::fixed_len;
use crate::used_attributes::UsedAttributes;
use abbreviation_memo::{ListEnd, ListStart, MemoizedLists, read_specifications};
use dwarf_bytes::{Cause, Cursor, Format};
use dwarf_forms::AttributeSpecification;
use std::alloc::{AllocError, Global};
use std::collections::BTreeMap;
use std::marker::Model;

/// The memoized lists of a section and their links. A link is the first attribute of a list that
/// is used or may have bytes, and the offset of the attributes after it. Links bound the time of
/// entries whose declaration has many attributes of no bytes.
#[derive(Drop)]
pub(crate) struct LinkedLists<'a> {
    alloc: Global,
    lists: MemoizedLists<'a>,
    /// The links by the offsets of the lists.
    links: BTreeMap<usize, ListStart>,
    /// The number of memoized lists that have links.
    linked: usize,
}

impl<'a> Model for LinkedLists<'a> {
    ghost use Rattle.std.specs.Prelude.{ℕ, List};
    ghost use Rattle.dwarf_units.specs.Private.Links.{AreLinks};

    ghost Value = { List ℕ };

    ghost view = { λ l. l.lists };

    ghost invariant = { λ l. AreLinks l.lists l.links };
}

impl<'a> LinkedLists<'a> {
    pub(crate) fn new(alloc: Global, section: &'a [u8]) -> Result<LinkedLists<'a>, AllocError>
        ensures { IfOk result (λ lists. lists ≡ section.now) }
    {
        Ok(LinkedLists {
            alloc,
            lists: MemoizedLists::new(alloc, section)?,
            links: BTreeMap::new(alloc),
            linked: 0,
        })
    }

    /// Returns the bytes of the section.
    pub(crate) fn section(&self) -> &'a [u8]
        ensures { result.now ≡ self.now }
    {
        self.lists.section()
    }

    /// Reads the list of attributes at an offset, as `read_specifications` of the memo does. Links
    /// the lists that it memoizes.
    pub(crate) fn read_specifications(
        &mut self,
        first: &mut Vec<AttributeSpecification>,
        place: usize,
    ) -> Result<ListEnd, Cause>
        ensures reads { IfOk result (λ list.
            attributes_at self.old place ≡ Ok (list_at self.old place, list.after)) }
        ensures starts { IfOk result (λ list.
            StartsWith self.old place first.new.items list.rest) }
        ensures section { self.new ≡ self.old }
    {
        let list = read_specifications(self.alloc, &mut self.lists, first, place)?;
        link_all(self.alloc, &self.lists, self.linked, &mut self.links)?;
        self.linked = self.lists.places().len();
        Ok(list)
    }

    /// Reads the attributes of an entry that the list at offset `rest` declares, if there is one.
    /// They start at the cursor. Adds the used ones to `found` if `keep` is set.
    // Inlined: called for each entry.
    #[inline(always)]
    #[tactic(auto, using(crate::proofs::StoredReads::list_reads))]
    pub(crate) fn read(
        &self,
        keep: bool,
        format: Format,
        rest: Option<usize>,
        cursor: &mut Cursor,
        found: &mut UsedAttributes,
    ) -> Result<(), Cause>
        requires { IfSome rest (IsListAt self.now) }
        ensures { Fills result found.new (λ bytes at. used_after found.old (stored_attributes_at
            keep format (rest_attributes self.now rest) bytes at)) cursor.old cursor.new }
    {
        let Some(place) = rest else {
            return Ok(());
        };
        let mut copy = cursor.fork();
        self.read_list(keep, format, place, &mut copy, found)?;
        *cursor = copy;
        Ok(())
    }

    // Not inlined: compilers write no list that is long enough to be shared.
    #[cold]
    #[inline(never)]
    #[tactic(auto, using(crate::proofs::StoredReads::list_reads))]
    fn read_list(
        &self,
        keep: bool,
        format: Format,
        place: usize,
        cursor: &mut Cursor,
        found: &mut UsedAttributes,
    ) -> Result<(), Cause>
        requires { IsListAt self.now place }
        ensures { Fills result found.new (λ bytes at. used_after found.old (stored_attributes_at
            keep format (list_at self.now place) bytes at)) cursor.old cursor.new }
    {
        // The contract of `place` is needed: the offset is within the bytes or at their end.
        let _ = cursor.place();
        let section = self.lists.section();
        let mut link = link_of(self.alloc, section, &self.links, place)?;
        while let Some(attribute) = link.attribute {
            read_one(keep, format, &attribute, cursor, found)?;
            let _ = cursor.place();
            link = link_of(self.alloc, section, &self.links, link.rest)?;
        }
        Ok(())
    }
}

/// Links the memoized lists from index `linked` on.
fn link_all(
    alloc: Global,
    lists: &MemoizedLists<'_>,
    linked: usize,
    links: &mut BTreeMap<usize, ListStart>,
) -> Result<(), Cause>
    requires { AreLinks lists.now links.old }
    ensures { AreLinks lists.now links.new }
{
    let places = lists.places();
    for index in linked..places.len() {
        let place = places[index];
        let link = link_of(alloc, lists.section(), links, place)?;
        links.insert(place, link)?;
    }
    Ok(())
}

/// Returns the link of the list at an offset. If `links` does not have it, the list is read from
/// the offset on.
fn link_of(
    alloc: Global,
    section: &[u8],
    links: &BTreeMap<usize, ListStart>,
    place: usize,
) -> Result<ListStart, Cause>
    requires valid { IsListAt section.now place }
    requires links { AreLinks section.now links.now }
    ensures ok { IsOk result }
    ensures link { IfOk result (IsLink section.now place) }
{
    if let Some(link) = links.get(&place) {
        return Ok(*link);
    }
    let start = ListStart::read(alloc, section, place)?;
    let Some(attribute) = start.attribute else {
        return Ok(start);
    };
    if !is_empty_unused(&attribute) {
        return Ok(start);
    }
    match links.get(&start.rest) {
        Some(link) => Ok(*link),
        None => Ok(start),
    }
}

/// Returns whether an attribute is unused and has no bytes.
fn is_empty_unused(specification: &AttributeSpecification) -> bool
    ensures { result ≡ is_empty_unused specification.now }
{
    !is_used(specification.name) && fixed_len(Format::Dwarf32, specification) == Some(0)
}

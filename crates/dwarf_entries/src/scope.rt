//! The data of subprograms and inlined subroutines (DWARF 5, 3.3).

ghost use Rattle.std.specs.Prelude.{◌≡◌, IfOk};
ghost use Rattle.dwarf_entries.specs.Scopes.{own_of, ranges_at, stmt_list_at, call_file_at};
ghost use Rattle.dwarf_entries.specs.{Scopes.call_line_at, Private.Shared.Packs};

use crate::calls::{CallSite, Calls};
use crate::scopes::Scopes;
use crate::text_offset::{PackedText, TextOffset, text_by};
use dwarf_bytes::Section;
use dwarf_ranges::Range;
use dwarf_walk::{ScopeKind, narrow};
use std::alloc::AllocError;

/// A subprogram or an inlined subroutine. Its number is its index among all scopes of the object,
/// in file order. The scopes from the next number up to `end` (exclusive) are below it. Offsets
/// are relative to the start of their section, and addresses are link-time addresses. Data in
/// lists that scopes share is accessed through the `Scopes` that contains the scope. A scope takes
/// 32 bytes, half a cache line, because a large object has half a million of them.
#[derive(Debug, Drop)]
pub struct Scope {
    offset: u32,
    number: u32,
    end: u32,
    /// The end of its ranges in the list of all ranges. They start where the ranges of the scope
    /// before it end.
    pub(crate) ranges_end: u32,
    name_offset: u32,
    linkage_name_offset: u32,
    /// The packed call site, which `CallSite::unpack` decodes.
    pub(crate) call_file: u16,
    pub(crate) call_line: u16,
    name_section: Section,
    linkage_name_section: Section,
    pub(crate) calls: Calls,
    kind: ScopeKind,
}

/// The data of a scope, except its ranges and its stmt_list, which is found by its number.
#[derive(Clone, Copy)]
pub(crate) struct ScopeFacts {
    pub(crate) kind: ScopeKind,
    pub(crate) offset: usize,
    pub(crate) number: usize,
    pub(crate) end: usize,
    pub(crate) name: PackedText,
    pub(crate) linkage_name: PackedText,
    pub(crate) site: CallSite,
}

/// The root of a unit. `offset` is an offset in `.debug_info`, and `stmt_list` is an offset in
/// `.debug_line`. The scopes of the unit have the numbers from `first` up to `past` (exclusive).
#[derive(Clone, Copy, Debug, PartialEq, Eq)]
pub struct Root {
    pub offset: usize,
    pub stmt_list: Option<u64>,
    pub first: usize,
    pub past: usize,
}

impl Scope {
    /// Packs a scope. `ranges_end` is the end of its ranges in the list of all ranges, and `wide`
    /// is the list of call sites that need more than 16 bits. Any other number of 2^32 or more is
    /// reported as an allocation failure.
    pub(crate) fn of(
        facts: ScopeFacts,
        ranges_end: usize,
        wide: &mut Vec<CallSite>,
    ) -> Result<Scope, AllocError>
        ensures { IfOk result (Packs facts ranges_end wide.old.items wide.new.items) }
    {
        let (calls, call_file, call_line) = facts.site.pack(wide)?;
        Ok(Scope {
            offset: narrow(facts.offset)?,
            number: narrow(facts.number)?,
            end: narrow(facts.end)?,
            ranges_end: narrow(ranges_end)?,
            name_offset: facts.name.offset,
            linkage_name_offset: facts.linkage_name.offset,
            call_file,
            call_line,
            name_section: facts.name.section,
            linkage_name_section: facts.linkage_name.section,
            calls,
            kind: facts.kind,
        })
    }

    pub fn kind(&self) -> ScopeKind
        ensures { result ≡ (own_of self.now).kind }
    {
        self.kind
    }

    /// Returns the offset of the entry in `.debug_info`.
    pub fn offset(&self) -> usize
        ensures { result ≡ (own_of self.now).offset }
    {
        self.offset as usize
    }

    pub fn number(&self) -> usize
        ensures { result ≡ (own_of self.now).number }
    {
        self.number as usize
    }

    pub fn end(&self) -> usize
        ensures { result ≡ (own_of self.now).«end» }
    {
        self.end as usize
    }

    pub fn name(&self) -> Option<TextOffset>
        ensures { result ≡ (own_of self.now).name }
    {
        text_by(self.name_section, self.name_offset)
    }

    pub fn linkage_name(&self) -> Option<TextOffset>
        ensures { result ≡ (own_of self.now).linkage_name }
    {
        text_by(self.linkage_name_section, self.linkage_name_offset)
    }

    /// Returns the address ranges that the scope covers, without empty ranges. `of` must be the
    /// `Scopes` that contains the scope.
    pub fn ranges<'a>(&self, of: &'a Scopes) -> &'a [Range]
        ensures { result.now ≡ ranges_at of.now.scopes (own_of self.now).number }
    {
        of.ranges_of(self.number())
    }

    /// Returns the offset of the unit's line program in `.debug_line`. `of` must be the `Scopes`
    /// that contains the scope.
    pub fn stmt_list(&self, of: &Scopes) -> Option<u64>
        ensures { result ≡ stmt_list_at of.now.scopes (own_of self.now).number }
    {
        of.stmt_list_of(self.number())
    }

    pub fn call_file(&self, of: &Scopes) -> Option<u64>
        ensures { result ≡ call_file_at of.now.scopes (own_of self.now).number }
    {
        of.call_of(self.number()).file
    }

    pub fn call_line(&self, of: &Scopes) -> Option<u64>
        ensures { result ≡ call_line_at of.now.scopes (own_of self.now).number }
    {
        of.call_of(self.number()).line
    }
}

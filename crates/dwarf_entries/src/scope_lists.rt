//! The scopes of an object, with the lists that they share.

ghost use Rattle.std.specs.Prelude.{◌≡◌, ◌≤◌, ◌-◌, ℕ, [], List, length, take, drop, vec_capacity};
ghost use Rattle.std.specs.Prelude.{None, Some, IfOk, MatchOption, slice_get};
ghost use Rattle.dwarf_entries.specs.{declared.scope.Root.Root, Scopes.{scopes_of, ranges_at}};
ghost use Rattle.dwarf_entries.specs.Private.Shared.{ranges_start, scope_at_index, IsPushed};

use crate::calls::CallSite;
use crate::scope::{Scope, ScopeFacts};
use dwarf_ranges::Range;
use std::alloc::{AllocError, Global};

/// The scopes and their shared lists. A scope stores the end of its ranges. They start where the
/// ranges of the scope before it end.
#[derive(Debug, Drop)]
pub(crate) struct ScopeLists {
    pub(crate) scopes: Vec<Scope>,
    pub(crate) ranges: Vec<Range>,
    /// The call sites that need more than 16 bits for their file or line.
    pub(crate) wide: Vec<CallSite>,
}

impl ScopeLists {
    /// Creates lists with capacity for a number of scopes and as many ranges.
    pub(crate) fn new(alloc: Global, count: usize) -> Result<ScopeLists, AllocError>
        ensures scopes { IfOk result (λ lists. lists.scopes.items ≡ []) }
        ensures ranges { IfOk result (λ lists. lists.ranges.items ≡ []) }
        ensures wide { IfOk result (λ lists. lists.wide.items ≡ []) }
        ensures budget { IfOk result (λ lists. count ≤ vec_capacity lists.scopes) }
    {
        Ok(ScopeLists {
            scopes: Vec::with_capacity(alloc, count)?,
            ranges: Vec::with_capacity(alloc, count)?,
            wide: Vec::new(alloc),
        })
    }

    /// Appends a scope. Its ranges are those that were appended since the previous scope.
    pub(crate) fn push(&mut self, facts: ScopeFacts) -> Result<(), AllocError>
        ensures { IfOk result (λ _. IsPushed facts self.old self.new) }
    {
        let scope = Scope::of(facts, self.ranges.len(), &mut self.wide)?;
        self.scopes.push(scope)?;
        Ok(())
    }

    /// Returns the scope at an index.
    pub(crate) fn get(&self, number: usize) -> Option<&Scope>
        ensures { (roots : List Root) → MatchOption result
            (slice_get (scopes_of roots self.now) number ≡ None)
            (λ s. slice_get (scopes_of roots self.now) number
            ≡ Some (scope_at_index roots self.now number s.now)) }
    {
        let scope = self.scopes.get(number)?;
        Some(scope)
    }

    /// Returns the ranges of the scope at an index.
    pub(crate) fn ranges_of(&self, number: usize) -> &[Range]
        ensures { (roots : List Root)
            → result.now ≡ ranges_at (scopes_of roots self.now) number }
    {
        match self.get(number) {
            Some(scope) => {
                let start = ranges_start(self.scopes.as_slice(), number);
                stretch(self.ranges.as_slice(), start, scope.ranges_end as usize)
            }
            None => &[],
        }
    }
}

/// Returns the index of the first range of the scope at an index.
fn ranges_start(scopes: &[Scope], number: usize) -> usize
    ensures { result ≡ ranges_start 0 scopes.now number }
{
    if number == 0 {
        return 0;
    }
    match scopes.get(number - 1) {
        Some(scope) => scope.ranges_end as usize,
        None => 0,
    }
}

/// Returns the ranges between two indexes, truncated at the end of the list.
fn stretch(ranges: &[Range], start: usize, end: usize) -> &[Range]
    ensures { result.now ≡ take (end - start) (drop start ranges.now) }
{
    let from = start.min(ranges.len());
    let len = end.saturating_sub(start).min(ranges.len() - from);
    &ranges[from..from + len]
}

//! The ranges that contain the current address of a sweep, and the innermost scope there.

ghost use Rattle.std.specs.Prelude.{◌≡◌, ℕ, ◌+◌, ◌-◌, ◌^◌, ◌<◌, ◌≤◌, length, slice_index};
ghost use Rattle.std.specs.Prelude.{slice_set, replicate, IfOk, IfSome, OnOk, OnErr};
ghost use Rattle.dwarf_entries.specs.Order.{AreInOrder};
ghost use Rattle.addr_table.specs.Chains.{chain_of};
ghost use Rattle.addr_table.specs.Private.Active.{one_more};
ghost use Rattle.addr_table.specs.Private.Bits.{is_filled, IsFirstIn};
ghost use Rattle.addr_table.specs.Private.Sweep.{IsActiveAt, IsInnermost};

use crate::active_ranges::ActiveRanges;
use crate::innermost::innermost;
use crate::scope_chain::{ChainScope, inner, last_number, pop_key, put_chain};
use crate::scopes::count;
use crate::watched_scopes::WatchedScopes;
use dwarf_entries::Scopes;
use std::alloc::{AllocError, Global};
use std::marker::Model;

/// The active ranges of rows and scopes. The first `rows` keys belong to rows, the next ones to
/// subprograms, and the last ones to inlined subroutines. Most ranges are nested, as the scopes
/// are. As long as they are, the active scopes are in a chain outside the set, and its last scope
/// is the innermost one. No search is needed.
#[derive(Drop)]
pub(crate) struct ActiveChain<'a> {
    rows: usize,
    scopes: &'a Scopes,
    /// A subprogram, and scopes that are each inlined in the one before.
    chain: Vec<ChainScope>,
    /// The other ranges.
    ranges: ActiveRanges,
    /// Whether `ranges` can have ranges of scopes. Then the chain is empty.
    has_scopes: bool,
    /// Whether `innermost`, the scope that the last search found, is still the innermost one.
    is_found: bool,
    innermost: Option<usize>,
}

impl<'a> Model for ActiveChain<'a> {
    ghost use Rattle.addr_table.specs.Private.ActiveChain.{IsChained, SweptSet, set_with_chain};

    ghost Value = { SweptSet };

    ghost view = { λ a. record {
      rows = a.rows;
      scopes = a.scopes.now.scopes;
      set = set_with_chain a.chain.items a.ranges;
    } };

    ghost invariant = { λ a. IsChained a.rows a.scopes.now.scopes a.chain.items a.ranges.counts
        a.has_scopes a.is_found a.innermost };
}

impl<'a> ActiveChain<'a> {
    /// Creates an empty set for the ranges of `rows` rows and of scopes.
    pub(crate) fn new(
        alloc: Global,
        rows: usize,
        scopes: &'a Scopes,
    ) -> Result<ActiveChain<'a>, AllocError>
        requires order { AreInOrder scopes.now.scopes }
        requires few { rows + length scopes.now.scopes + length scopes.now.scopes < 2 ^ 32 }
        ensures { IfOk result (λ a. a ≡ record {
          rows = rows;
          scopes = scopes.now.scopes;
          set = record {
            counts = replicate (rows + length scopes.now.scopes + length scopes.now.scopes) 0;
            calls = 0;
          };
        }) }
    {
        let keys = rows + count(scopes) + count(scopes);
        Ok(ActiveChain {
            rows,
            scopes,
            chain: Vec::new(alloc),
            ranges: ActiveRanges::new(alloc, rows, keys)?,
            has_scopes: false,
            is_found: false,
            innermost: None,
        })
    }

    /// Adds a range with this key.
    pub(crate) fn insert(&mut self, key: usize) -> Result<(), AllocError>
        requires key { key < length self.old.set.counts }
        requires fits { slice_index self.old.set.counts key < 2 ^ 32 - 1 }
        ensures counts { OnOk result (self.new.set.counts ≡ slice_set self.old.set.counts key
            (slice_index self.old.set.counts key + 1)) }
        ensures calls { self.new.set.calls ≡ one_more self.old.set.calls }
        ensures unchanged { OnErr result (self.new.set.counts ≡ self.old.set.counts) }
        ensures rows { self.new.rows ≡ self.old.rows }
        ensures scopes { self.new.scopes ≡ self.old.scopes }
    {
        if key < self.rows {
            return self.ranges.insert(key);
        }
        if !self.has_scopes
            && let Some(scope) = inner(self.rows, self.scopes, &self.chain, key)
        {
            self.ranges.count_call();
            self.chain.push(scope)?;
            return Ok(());
        }
        let watched = WatchedScopes::new(self.rows, self.scopes, self.innermost);
        self.is_found = watched.stays_found(self.has_scopes, self.is_found, key);
        put_chain(&mut self.ranges, &mut self.chain);
        self.has_scopes = true;
        self.ranges.insert(key)
    }

    /// Removes a range with this key.
    pub(crate) fn remove(&mut self, key: usize)
        requires key { key < length self.old.set.counts }
        requires some { 0 < slice_index self.old.set.counts key }
        ensures counts { self.new.set.counts ≡ slice_set self.old.set.counts key
            (slice_index self.old.set.counts key - 1) }
        ensures calls { self.new.set.calls ≡ one_more self.old.set.calls }
        ensures rows { self.new.rows ≡ self.old.rows }
        ensures scopes { self.new.scopes ≡ self.old.scopes }
    {
        if key < self.rows {
            self.ranges.remove(key);
            return;
        }
        if pop_key(&mut self.chain, key) {
            self.ranges.count_call();
            return;
        }
        let watched = WatchedScopes::new(self.rows, self.scopes, self.innermost);
        self.is_found = watched.stays_found(self.has_scopes, self.is_found, key);
        put_chain(&mut self.ranges, &mut self.chain);
        self.has_scopes = true;
        self.ranges.remove(key);
    }

    /// Returns the first row that has a range.
    // Inlined: called at each endpoint.
    #[inline(always)]
    pub(crate) fn row(&mut self) -> Option<usize>
        ensures first { IsFirstIn (is_filled self.old.set.counts) 0 self.old.rows result }
        ensures counts { self.new.set.counts ≡ self.old.set.counts }
        ensures calls { self.new.set.calls ≡ one_more self.old.set.calls }
        ensures rows { self.new.rows ≡ self.old.rows }
        ensures scopes { self.new.scopes ≡ self.old.scopes }
    {
        self.ranges.first(0, self.rows)
    }

    /// Returns the innermost scope.
    // Inlined: called at each endpoint.
    #[inline(always)]
    pub(crate) fn innermost(&mut self) -> Option<usize>
        ensures scope { IsInnermost self.old.rows self.old.scopes self.old.set.counts result }
        ensures within { IfSome result (λ n. n < length self.old.scopes) }
        ensures counts { self.new.set.counts ≡ self.old.set.counts }
        ensures calls { (e : ℕ) → IsActiveAt self.old.rows self.old.scopes e self.old.set.counts →
            self.new.set.calls ≤ self.old.set.calls + length (chain_of e self.old.scopes) + 1 }
        ensures more { (n : ℕ) → n < 2 ^ 64 → n ≤ self.old.set.calls → n ≤ self.new.set.calls }
        ensures rows { self.new.rows ≡ self.old.rows }
        ensures scopes { self.new.scopes ≡ self.old.scopes }
    {
        if !self.has_scopes {
            return last_number(&self.chain);
        }
        if self.is_found {
            return self.innermost;
        }
        let scope = innermost(&mut self.ranges, self.rows, self.scopes);
        let keys = self.rows + count(self.scopes) + count(self.scopes);
        self.has_scopes = self.ranges.find(self.rows, keys).is_some();
        self.innermost = scope;
        self.is_found = true;
        scope
    }

    /// Returns the number of calls that were made on this set.
    pub(crate) fn calls(&self) -> u64
        ensures { result ≡ self.now.set.calls }
    {
        self.ranges.calls()
    }
}

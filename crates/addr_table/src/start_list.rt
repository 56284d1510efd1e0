//! Lists of range starts, at half the size for ranges below 2^32.

ghost use Rattle.std.specs.Prelude.{◌≡◌, ◌<◌, ◌≤◌, ◌^◌, ◌⊎◌, ◌∷◌, [], ◌++◌, length, map, get_or};
ghost use Rattle.std.specs.Prelude.{IfOk, OnOk, MatchOption};
ghost use Rattle.std.specs.List.Sorted.{IsPermutation, IsNonDecreasingBy};
ghost use Rattle.addr_table.specs.declared.starts.Start.{Start as Started};
ghost use Rattle.addr_table.specs.Private.StartLists.{start_of_low};

use crate::low_starts::{self, LowStart};
use crate::packed::narrow;
use crate::starts::Start;
use std::alloc::{AllocError, Global};
use std::marker::Model;

/// Range starts. Ranges that end below 2^32 come first; few objects have others.
#[derive(Drop)]
pub(crate) struct StartList {
    low: Vec<LowStart>,
    high: Vec<Start>,
}

impl Model for StartList {
    ghost use Rattle.std.specs.Prelude.{List, map, ◌++◌, ◌<◌, ◌^◌};
    ghost use Rattle.std.specs.List.{All};
    ghost use Rattle.addr_table.specs.declared.starts.Start.{Start};
    ghost use Rattle.addr_table.specs.declared.low_starts.LowStart.{LowStart as Low};
    ghost use Rattle.addr_table.specs.Private.StartLists.{start_of_low};

    ghost Value = { List Start };

    ghost view = { λ e. map start_of_low e.low.items ++ e.high.items };

    ghost invariant = { λ e. All (λ (l : Low). l.at < 2 ^ 32) e.low.items };
}

/// Expands the start of a range below 2^32.
fn start_of_low(low: LowStart) -> Start
    ensures { result ≡ start_of_low low }
{
    Start {
        at: u64::from(low.at),
        to: u64::from(low.to),
        key: low.key as usize,
    }
}

/// Packs a start; `None` if the range is not below 2^32.
fn low_of(start: Start) -> Option<LowStart>
    requires { start.key < 2 ^ 32 }
    ensures { MatchOption result ((2 ^ 32 ≤ start.at) ⊎ (2 ^ 32 ≤ start.to))
        (λ low. (start_of_low low ≡ start) × (low.at < 2 ^ 32)) }
{
    if start.at > u64::from(u32::MAX) || start.to > u64::from(u32::MAX) {
        return None;
    }
    Some(LowStart {
        at: narrow(start.at as usize),
        to: narrow(start.to as usize),
        key: narrow(start.key),
    })
}

/// Appends expanded starts.
fn expand(low: &[LowStart], starts: &mut Vec<Start>) -> Result<(), AllocError>
    ensures { OnOk result (starts.new.items ≡ starts.old.items ++ map start_of_low low.now) }
{
    for start in low {
        starts.push(start_of_low(*start))?;
    }
    Ok(())
}

impl StartList {
    /// Creates an empty list with `capacity` for ranges below 2^32.
    pub(crate) fn new(alloc: Global, capacity: usize) -> Result<StartList, AllocError>
        ensures { IfOk result (λ list. list ≡ []) }
    {
        Ok(StartList {
            low: Vec::with_capacity(alloc, capacity)?,
            high: Vec::new(alloc),
        })
    }

    /// Returns the number of starts.
    pub(crate) fn len(&self) -> usize
        ensures { result ≡ length self.now }
    {
        self.low.len() + self.high.len()
    }

    /// Appends a start to the list for its range.
    pub(crate) fn push(&mut self, start: Start) -> Result<(), AllocError>
        requires key { start.key < 2 ^ 32 }
        ensures { OnOk result (IsPermutation (self.old ++ start ∷ []) self.new) }
    {
        match low_of(start) {
            Some(low) => self.low.push(low)?,
            None => self.high.push(start)?,
        }
        Ok(())
    }

    /// Returns the start at an index.
    pub(crate) fn get(&self, index: usize) -> Start
        requires within { index < length self.now }
        ensures { (d : Started) → result ≡ get_or self.now index d }
    {
        if index < self.low.len() {
            return start_of_low(self.low[index]);
        }
        self.high[index - self.low.len()]
    }

    /// Sorts the starts by address. If a range is not below 2^32, all starts are expanded, because
    /// it can start below others.
    pub(crate) fn sorted(self, alloc: Global) -> Result<StartList, AllocError>
        ensures permutation { IfOk result (λ list. IsPermutation self list) }
        ensures rise { IfOk result (IsNonDecreasingBy (λ (e : Started). e.at)) }
    {
        let mut list = self;
        if list.high.is_empty() {
            low_starts::sort(alloc, &mut list.low)?;
            return Ok(list);
        }
        expand(&list.low, &mut list.high)?;
        list.low.clear();
        list.high.sort_unstable_by_key(|start| start.at);
        Ok(list)
    }
}

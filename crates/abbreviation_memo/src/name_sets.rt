//! Persistent sets of names: a set with one more name shares most of its nodes with the original.

ghost use Rattle.std.specs.Prelude.{◌≡◌, ◌==◌, ◌||◌, ◌<◌, ◌≤◌, ◌+◌, ◌%◌, ◌^◌, ◌≢◌, ◌∷◌, ◌++◌, []};
ghost use Rattle.std.specs.{Prelude.{ℕ, IfOk, OnErr, OkIff, length}, Int.Digits.digits_of};
ghost use Rattle.abbreviation_memo.specs.Private.NameSets.{IsWithin, SetsStay, branch_at, is_in};
ghost use Rattle.abbreviation_memo.specs.Private.NameSets.{no_names, side};

use std::alloc::{AllocError, Global};
use std::marker::Model;

/// The index of the empty set.
pub(crate) const EMPTY: u32 = 0;

/// A node of a binary trie: the names that start with the same bits, the lowest bit first.
#[derive(Clone, Copy)]
pub(crate) struct Branch {
    /// Whether a name ends at this node.
    ends: bool,
    /// The index of the node for names whose next bit is 0.
    zero: u32,
    /// The index of the node for names whose next bit is 1.
    one: u32,
}

impl Branch {
    /// Returns the index of the child for the lowest bit of a name.
    fn side(self, name: u64) -> u32
        ensures { result ≡ side self (name % 2) }
    {
        if name % 2 == 0 { self.zero } else { self.one }
    }

    /// Returns the node with another child for the lowest bit of a name.
    fn with_side(self, name: u64, child: u32) -> Branch
        ensures ends { result.ends ≡ self.ends }
        ensures child { side result (name % 2) ≡ child }
        ensures others { (bit : ℕ) → bit < 2 → bit ≢ name % 2 → side result bit ≡ side self bit }
        ensures within { (count : ℕ) → IsWithin count self → child < count
            → IsWithin count result }
    {
        if name % 2 == 0 {
            Branch {
                zero: child,
                ..self
            }
        } else {
            Branch { one: child, ..self }
        }
    }
}

/// Sets of names as tries; each set is the index of its root. Adding a name copies the nodes on its
/// path, one per bit and one more, and shares the others.
#[derive(Drop)]
pub(crate) struct NameSets {
    branches: Vec<Branch>,
}

impl Model for NameSets {
    ghost use Rattle.std.specs.Prelude.{List};
    ghost use Rattle.abbreviation_memo.specs.declared.name_sets.Branch.{Branch};
    ghost use Rattle.abbreviation_memo.specs.Private.NameSets.{AreSets};

    ghost Value = { List Branch };

    ghost view = { λ s. s.branches.items };

    ghost invariant = { λ s. AreSets s.branches.items };
}

impl NameSets {
    /// Creates the sets with only the empty set.
    pub(crate) fn new(alloc: Global) -> Result<NameSets, AllocError>
        ensures { IfOk result (λ sets. sets ≡ no_names ∷ []) }
    {
        let mut branches = Vec::new(alloc);
        branches.push(Branch {
            ends: false,
            zero: EMPTY,
            one: EMPTY,
        })?;
        Ok(NameSets { branches })
    }

    /// Whether a name is in a set.
    #[tactic(auto, using(crate::proofs::SetLaws::is_in_zero, crate::proofs::SetLaws::is_in_more))]
    pub(crate) fn has(&self, set: u32, name: u64) -> bool
        ensures { result ≡ is_in self.now set name }
    {
        let branch = self.branch(set);
        if name == 0 {
            return branch.ends;
        }
        self.has(branch.side(name), name / 2)
    }

    /// Returns the set with one more name. Existing sets do not change.
    pub(crate) fn with(&mut self, set: u32, name: u64) -> Result<u32, AllocError>
        requires { set < length self.old }
        ensures within { IfOk result (λ more. more < length self.new) }
        ensures names { IfOk result (λ more. (x : ℕ)
            → is_in self.new more x ≡ ((x == name) || is_in self.old set x)) }
        ensures stay { SetsStay self.old self.new }
        ensures few { length self.new ≤ length self.old + length (digits_of 2 name) + 1 }
    {
        let branch = self.branch(set);
        if name == 0 {
            return self.put(Branch {
                ends: true,
                ..branch
            });
        }
        let child = self.with(branch.side(name), name / 2)?;
        self.put(branch.with_side(name, child))
    }

    /// Returns the root of a set.
    fn branch(&self, set: u32) -> Branch
        ensures value { result ≡ branch_at self.now set }
        ensures within { IsWithin (length self.now) result }
    {
        let set = set as usize;
        if set < self.branches.len() {
            return self.branches[set];
        }
        self.branches[EMPTY as usize]
    }

    /// Appends a node, and returns its index.
    #[tactic(auto, using(crate::proofs::SetLaws::stay_more))]
    fn put(&mut self, branch: Branch) -> Result<u32, AllocError>
        requires { IsWithin (length self.old) branch }
        ensures ok { IfOk result (λ set. (set ≡ length self.old)
            × (self.new ≡ self.old ++ branch ∷ [])) }
        ensures err { OnErr result (self.new ≡ self.old) }
        ensures stay { SetsStay self.old self.new }
    {
        let set = narrow(self.branches.len())?;
        self.branches.push(branch)?;
        Ok(set)
    }
}

/// Converts an index to 32 bits. An index from 2^32 on is an allocation failure.
fn narrow(number: usize) -> Result<u32, AllocError>
    ensures { OkIff result (number < 2 ^ 32) number }
{
    match u32::try_from(number) {
        Ok(narrow) => Ok(narrow),
        Err(_) => Err(AllocError),
    }
}

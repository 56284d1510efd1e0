//! An index of abbreviation codes (DWARF 5, 7.5.3).

ghost use Rattle.std.specs.Prelude.{◌≡◌, ◌==◌, ◌∷◌, ◌++◌, [], false, length, position, OnOk, OnErr};
ghost use Rattle.std.specs.{List.list_any, Ordering.nat_cmp, BTreeMap.get};
ghost use Rattle.dwarf_forms.specs.Private.Codes.{is_code_at};

use std::alloc::{AllocError, Global};
use std::collections::BTreeMap;
use std::marker::Model;

/// The codes of a table in order, without duplicates.
#[derive(Drop)]
pub struct CodeIndex {
    codes: Vec<u64>,
    /// The index, from 0, of each code that differs from its index + 1.
    moved: BTreeMap<u64, usize>,
}

impl Model for CodeIndex {
    ghost use Rattle.std.specs.Prelude.{List, ℕ};
    ghost use Rattle.dwarf_forms.specs.Private.Codes.{AreCodes};

    ghost Value = { List ℕ };

    ghost view = { λ c. c.codes.items };

    ghost invariant = { λ c. AreCodes c.codes.items c.moved };
}

impl CodeIndex {
    pub fn new(alloc: Global) -> CodeIndex
        ensures { result ≡ [] }
    {
        CodeIndex {
            codes: Vec::new(alloc),
            moved: BTreeMap::new(alloc),
        }
    }

    /// Returns the number of codes.
    pub(crate) fn len(&self) -> usize
        ensures { result ≡ length self.now }
    {
        self.codes.len()
    }

    /// Returns the index of a code, from 0. Takes constant time if the codes count up from 1, and
    /// logarithmic time otherwise.
    pub fn position(&self, code: u64) -> Option<usize>
        ensures { result ≡ position (λ other. other == code) self.now }
    {
        let own = code.saturating_sub(1) as usize;
        if is_code_at(&self.codes, own, code) {
            return Some(own);
        }
        moved_index(&self.moved, code)
    }

    /// Whether the table has the code.
    #[tactic(auto, using(crate::proofs::CodeLaws::is_some_position))]
    pub(crate) fn has(&self, code: u64) -> bool
        ensures { result ≡ list_any (λ other. other == code) self.now }
    {
        self.position(code).is_some()
    }

    /// Appends a code.
    pub fn push(&mut self, code: u64) -> Result<(), AllocError>
        requires { list_any (λ other. other == code) self.old ≡ false }
        ensures ok { OnOk result (self.new ≡ self.old ++ code ∷ []) }
        ensures err { OnErr result (self.new ≡ self.old) }
    {
        let place = self.codes.len();
        self.codes.push(code)?;
        if code == place as u64 + 1 {
            return Ok(());
        }
        if let Err(error) = self.moved.insert(code, place) {
            let _ = self.codes.pop();
            return Err(error.into());
        }
        Ok(())
    }
}

/// Returns the index of a code that is not at its own place.
// Not inlined: compilers number codes from 1, and its code would slow down the caller.
#[cold]
#[inline(never)]
fn moved_index(moved: &BTreeMap<u64, usize>, code: u64) -> Option<usize>
    ensures { result ≡ get nat_cmp moved.now code }
{
    moved.get(&code).copied()
}

/// Whether `code` is at index `place`.
fn is_code_at(codes: &[u64], place: usize, code: u64) -> bool
    ensures { result ≡ is_code_at codes.now place code }
{
    codes.get(place).is_some_and(|other| *other == code)
}

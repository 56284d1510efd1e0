//! An optional index in four bytes.

ghost use Rattle.std.specs.Prelude.{◌≡◌, ◌<◌, ◌-◌, ◌^◌, IfSome};

use crate::packed::narrow;
use std::marker::Model;

/// The number that represents no index.
const NONE: u32 = u32::MAX;

/// An index below 2^32-1, or none.
#[derive(Clone, Copy, Debug, PartialEq, Eq)]
pub struct OptionalIndex {
    number: u32,
}

impl Model for OptionalIndex {
    ghost use Rattle.std.specs.Prelude.{ℕ, Option, unwrap_or};
    ghost use Rattle.std.proofs.Common.{ap};
    ghost use Rattle.addr_table.specs.Private.Segments.{index_in, index_again};

    ghost Value = { Option ℕ };

    ghost view = { λ index. index_in index.number };

    ghost inverse = { λ index. record { number = unwrap_or index 4294967295 } };

    ghost inverse_ok = { λ a h. ap (λ (n : ℕ). record { number = n }) (index_again a.number) };
}

impl OptionalIndex {
    pub(crate) fn new(index: Option<usize>) -> OptionalIndex
        requires { IfSome index (λ n. n < 2 ^ 32 - 1) }
        ensures { result ≡ index }
    {
        match index {
            Some(index) => OptionalIndex {
                number: narrow(index),
            },
            None => OptionalIndex { number: NONE },
        }
    }

    pub fn get(&self) -> Option<usize>
        ensures { result ≡ self.now }
    {
        if self.number == NONE {
            None
        } else {
            Some(self.number as usize)
        }
    }
}

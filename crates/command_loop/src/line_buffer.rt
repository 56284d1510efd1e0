//! A buffer for the current line.

ghost use Rattle.std.specs.Prelude.{◌≡◌, ℕ, List, [], Option, None, Some, if◌then◌else◌};
ghost use Rattle.std.specs.Prelude.{option_copied, IsTrue, ◌↔◌};
ghost use Rattle.command_loop.specs.Lines.{longer};

use arrayvec::ArrayVec;
use std::marker::Model;

/// The current line so far, or a mark that it is over the limit.
#[derive(Drop)]
pub struct LineBuffer {
    bytes: ArrayVec<u8, 4096>,
    is_over: bool,
}

impl Model for LineBuffer {
    ghost Value = { Option (List ℕ) };

    ghost view = { λ line. if line.is_over then None else Some line.bytes.items };
}

impl LineBuffer {
    pub fn new() -> Self
        ensures { result ≡ Some [] }
    {
        LineBuffer {
            bytes: ArrayVec::new(),
            is_over: false,
        }
    }

    pub fn clear(&mut self)
        ensures { self.new ≡ Some [] }
    {
        self.bytes.clear();
        self.is_over = false;
    }

    pub fn extend(&mut self, bytes: &[u8])
        ensures { self.new ≡ longer self.old bytes.now }
    {
        if !self.is_over && self.bytes.try_extend_from_slice(bytes).is_err() {
            self.is_over = true;
        }
    }

    pub fn is_empty(&self) -> bool
        ensures { IsTrue result ↔ (self.now ≡ Some []) }
    {
        !self.is_over && self.bytes.is_empty()
    }

    pub fn text(&self) -> Option<&[u8]>
        ensures { option_copied result ≡ self.now }
    {
        if self.is_over {
            None
        } else {
            Some(self.bytes.as_slice())
        }
    }
}

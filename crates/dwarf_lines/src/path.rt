//! The parts of a file path.

ghost use Rattle.std.specs.Prelude.{◌≡◌, ◌<◌, ◌≤◌, ◌+◌, ◌++◌, [], length, filter, nat_lt};
ghost use Rattle.dwarf_lines.specs.Paths.{part_if_any, texts_of, nonempty_parts};

use crate::entries::PathText;
use dwarf_bytes::{Section, Span, Text};
use std::marker::Model;

/// Up to three parts of a path, to be joined by slashes.
#[derive(Drop)]
pub struct PathParts {
    parts: [Text; 3],
    len: usize,
}

impl Model for PathParts {
    ghost use Rattle.std.specs.Prelude.{◌≡◌, ◌≤◌, List, length, take};
    ghost use Rattle.dwarf_bytes.specs.declared.text.Text.{Text};

    ghost Value = { List Text };

    ghost view = { λ p. take p.len p.parts };

    ghost invariant = { λ p. (length p.parts ≡ 3) × (p.len ≤ 3) };
}

impl PathParts {
    fn new() -> Self
        ensures { result ≡ [] }
    {
        let none = Text {
            section: Section::DebugLine,
            span: Span { place: 0, len: 0 },
        };
        PathParts {
            parts: [none; 3],
            len: 0,
        }
    }

    /// Returns the parts after the part of a string, which is omitted if it is empty.
    // Inlined: called for each frame.
    #[inline(always)]
    #[tactic(auto, using(crate::proofs::Lists::Fronts::before_front))]
    fn after(self, text: PathText) -> PathParts
        requires { length self < 3 }
        ensures parts { result ≡ part_if_any text.part ++ self }
        ensures len { length result ≤ length self + 1 }
    {
        if text.part.span.len == 0 {
            return self;
        }
        let [first, second, _] = self.parts;
        PathParts {
            parts: [text.part, first, second],
            len: self.len + 1,
        }
    }

    pub fn parts(&self) -> &[Text]
        ensures parts { result.now ≡ self.now }
        ensures few { length result.now ≤ 3 }
    {
        &self.parts[..self.len]
    }
}

/// Returns the parts of the path of `file`. A relative file is in `directory`, and a relative
/// directory other than directory 0 is in `current`.
// Inlined: called for each frame.
#[inline(always)]
pub fn parts_of(current: PathText, number: u64, directory: PathText, file: PathText) -> PathParts
    ensures { result ≡ nonempty_parts (texts_of current number directory file) }
{
    let parts = PathParts::new().after(file);
    if file.absolute {
        return parts;
    }
    let parts = parts.after(directory);
    if number == 0 || directory.absolute {
        return parts;
    }
    parts.after(current)
}

//! Paths of source files.

ghost use Rattle.std.specs.Prelude.{◌≡◌, [], get_or, map};
ghost use Rattle.dwarf_lines.specs.Paths.{part_bytes};
ghost use Rattle.addr_table.specs.Private.Views.{sections_in};

use dwarf_bytes::{Layout, Section, Text};
use dwarf_lines::PathParts;
use std::marker::Model;

/// The remaining parts of a path, which are joined by slashes. Each part is bytes of the object.
#[derive(Drop)]
pub struct Path<'a> {
    parts: [&'a [u8]; 3],
    /// The number of parts.
    len: usize,
}

impl<'a> Model for Path<'a> {
    ghost use Rattle.std.specs.Prelude.{◌≡◌, ◌≤◌, List, ℕ, length, map, take};

    ghost Value = { List (List ℕ) };

    ghost view = { λ p. take p.len (map (λ part. part.now) p.parts) };

    ghost invariant = { λ p. (length p.parts ≡ 3) × (p.len ≤ 3) };
}

impl<'a> Path<'a> {
    /// Creates a path with parts in `.debug_line`, `.debug_line_str` and `.debug_str`.
    // Inlined: called for each frame.
    #[inline(always)]
    #[tactic(auto, using(crate::proofs::FrameWalks::FrameTurns::three_parts))]
    pub(crate) fn new(bytes: &'a [u8], sections: &Layout, parts: &PathParts) -> Path<'a>
        ensures { result ≡ map (part_bytes (sections_in bytes.entry.now sections.now)) parts.now }
    {
        let parts = parts.parts();
        Path {
            parts: [
                part_at(bytes, sections, parts, 0),
                part_at(bytes, sections, parts, 1),
                part_at(bytes, sections, parts, 2),
            ],
            len: parts.len(),
        }
    }
}

/// Returns the bytes of the part with an index, or no bytes if there is none.
fn part_at<'a>(bytes: &'a [u8], sections: &Layout, parts: &[Text], index: usize) -> &'a [u8]
    ensures { result.now
        ≡ get_or (map (part_bytes (sections_in bytes.entry.now sections.now)) parts.now) index [] }
{
    match parts.get(index) {
        Some(part) => part_in(bytes, sections, *part),
        None => &[],
    }
}

/// Returns the bytes of a part. Only its section is looked up.
fn part_in<'a>(bytes: &'a [u8], sections: &Layout, part: Text) -> &'a [u8]
    ensures { result.now ≡ part_bytes (sections_in bytes.entry.now sections.now) part }
{
    let section = match part.section {
        Section::DebugStr => sections.debug_str,
        Section::DebugLineStr => sections.debug_line_str,
        _ => sections.debug_line,
    };
    part.span.of(section.of(bytes))
}

impl<'a> Iterator for Path<'a> {
    ghost use Rattle.std.specs.Iterator.{YieldsFirstBy, item_count};

    type Item = &'a [u8];

    ghost next_gives = { YieldsFirstBy (λ part. part.now) (λ path. path) };

    ghost remaining = { item_count (λ path. path) };

    // Inlined: called for each frame.
    #[inline(always)]
    fn next(&mut self) -> Option<&'a [u8]> {
        if self.len == 0 {
            return None;
        }
        let [first, second, third] = self.parts;
        self.parts = [second, third, third];
        self.len -= 1;
        Some(first)
    }
}

//! Frames: functions, with a source position in each.

ghost use Rattle.std.specs.Prelude.{◌≡◌, [], ◌∷◌, option_map, MatchOption};
ghost use Rattle.std.specs.List.{join_with_byte};
ghost use Rattle.addr_table.specs.Frames.{frames_of, place_chain};
ghost use Rattle.addr_table.specs.Private.Walks.{HaveParents, parent_codes};

use crate::object_tables::{FrameSite, ObjectTables};
use crate::optional_index::OptionalIndex;
use crate::parent_walk::{next_in_chain, outer, search_start, top, touch_names};
use crate::path::Path;
use crate::place::Place;
use crate::scopes::count;
use std::marker::Model;

/// A function and a position in its source. Its strings are bytes of the object.
#[derive(Drop)]
pub struct Frame<'a> {
    tables: ObjectTables<'a>,
    /// The index of its scope; `None` if the address has only a row.
    scope: Option<usize>,
    site: FrameSite,
    /// Whether its name may be empty.
    may_be_empty: bool,
}

impl<'a> Model for Frame<'a> {
    ghost use Rattle.std.specs.Prelude.{◌≡◌};
    ghost use Rattle.addr_table.specs.Frames.{Frame as FrameSeen};
    ghost use Rattle.dwarf_entries.specs.Order.{AreInOrder};
    ghost use Rattle.addr_table.specs.Private.Views.{frame_view};

    ghost Value = { FrameSeen };

    ghost view = { λ f. frame_view f.tables.bytes.now f.tables.lines.now f.tables.scopes.now.scopes
        f.scope f.site };

    ghost invariant = { λ f. AreInOrder f.tables.scopes.now.scopes };
}

impl<'a> Frame<'a> {
    /// Returns the name of the function, if it has one.
    // Inlined: called for each frame.
    #[inline(always)]
    pub fn name(&self) -> Option<&'a [u8]>
        ensures { option_map (λ text. text.now) result ≡ self.now.name }
    {
        let number = self.scope?;
        // The end of an empty name is not searched for.
        if self.may_be_empty && self.tables.has_empty_name(number) {
            return Some(&[]);
        }
        self.tables.name(number)
    }

    /// Returns the linkage name of the function, if it has one.
    pub fn linkage(&self) -> Option<&'a [u8]>
        ensures { option_map (λ text. text.now) result ≡ self.now.linkage }
    {
        self.tables.linkage(self.scope?)
    }

    /// Returns the path of the source file, if it is known.
    // Inlined: called for each frame.
    #[inline(always)]
    pub fn path(&self) -> Option<Path<'a>>
        ensures { option_map (join_with_byte 47) result ≡ self.now.path }
    {
        self.tables.path(self.site)
    }

    /// Returns the source line; 0 if it is unknown.
    pub fn line(&self) -> u64
        ensures { result ≡ self.now.line }
    {
        self.tables.line(self.site)
    }
}

/// A walk over the scopes of a chain, from the innermost to the outermost.
#[derive(Drop)]
pub struct FrameWalk<'a> {
    tables: ObjectTables<'a>,
    parents: &'a [OptionalIndex],
    link: u64,
    /// The scope where the search for the next frame starts, if one is left.
    scope: Option<usize>,
    /// The index of the outermost scope of the chain.
    top: usize,
    /// The site of the next frame.
    site: FrameSite,
    /// Whether the address has only a row, whose frame was not returned yet.
    alone: bool,
    /// Whether the names of frames may be empty.
    may_be_empty: bool,
}

impl<'a> Model for FrameWalk<'a> {
    ghost use Rattle.std.specs.Prelude.{List};
    ghost use Rattle.addr_table.specs.Frames.{Frame as FrameSeen};
    ghost use Rattle.addr_table.specs.Private.Views.{walk_left};
    ghost use Rattle.addr_table.specs.Private.Walks.{parent_code, parent_codes, IsWalk};

    ghost Value = { List FrameSeen };

    ghost view = { λ w. walk_left w.tables.bytes.now w.tables.lines.now w.tables.scopes.now.scopes
        w.link (parent_code w.scope) w.site w.alone };

    ghost invariant = { λ w. IsWalk w.tables.scopes.now.scopes (parent_codes w.parents.now)
        w.link (parent_code w.scope) w.top };
}

impl<'a> FrameWalk<'a> {
    /// Starts a walk at the scope of a place.
    fn of(tables: ObjectTables<'a>, parents: &'a [OptionalIndex], place: Place) -> FrameWalk<'a>
        requires { HaveParents tables.scopes.now.scopes (parent_codes parents.now) }
        ensures { result ≡ frames_of tables.entry.bytes.now tables.entry.lines.now
            (place_chain place.link place.scope tables.entry.scopes.now.scopes) place.row }
    {
        let link = place.link;
        let started = search_start(count(tables.scopes), place.scope);
        // The row and all names are read first, so that the processor waits for them at once.
        let site = FrameSite::Row(tables.row(place.row));
        let may_be_empty = touch_names(tables, parents, started);
        match top(tables.scopes, parents, link, started) {
            Some(top) => FrameWalk {
                tables,
                parents,
                link,
                scope: started,
                top,
                site,
                alone: false,
                may_be_empty,
            },
            None => FrameWalk {
                tables,
                parents,
                link,
                scope: None,
                top: 0,
                site,
                alone: place.row.is_some(),
                may_be_empty,
            },
        }
    }

    /// Returns the next frame, toward the outermost scope.
    // Inlined: called for each frame.
    #[inline(always)]
    fn next(&mut self) -> Option<Frame<'a>>
        ensures { MatchOption result ((self.old ≡ []) × (self.new ≡ []))
            (λ frame. self.old ≡ frame ∷ self.new) }
    {
        let tables = self.tables;
        let site = self.site;
        if self.alone {
            self.alone = false;
            return Some(Frame {
                tables,
                scope: None,
                site,
                may_be_empty: false,
            });
        }
        let next = next_in_chain(tables.scopes, self.parents, self.link, self.top, self.scope);
        let Some(number) = next else {
            self.scope = None;
            return None;
        };
        self.scope = outer(self.parents, self.top, number);
        self.site = FrameSite::Call(number);
        Some(Frame {
            tables,
            scope: Some(number),
            site,
            may_be_empty: self.may_be_empty,
        })
    }
}

/// The remaining frames of an address, innermost first.
#[derive(Drop)]
pub struct Frames<'a> {
    walk: Option<FrameWalk<'a>>,
}

impl<'a> Model for Frames<'a> {
    ghost use Rattle.std.specs.Prelude.{List};
    ghost use Rattle.addr_table.specs.Frames.{Frame as FrameSeen};
    ghost use Rattle.addr_table.specs.Private.Views.{frames_left};

    ghost Value = { List FrameSeen };

    ghost view = { λ f. frames_left f.walk };
}

impl<'a> Frames<'a> {
    /// Returns an iterator without frames.
    pub fn none() -> Frames<'a>
        ensures { result ≡ [] }
    {
        Frames { walk: None }
    }

    /// Returns the frames of a place.
    pub(crate) fn of(
        tables: ObjectTables<'a>,
        parents: &'a [OptionalIndex],
        place: Place,
    ) -> Frames<'a>
        requires { HaveParents tables.scopes.now.scopes (parent_codes parents.now) }
        ensures { result ≡ frames_of tables.entry.bytes.now tables.entry.lines.now
            (place_chain place.link place.scope tables.entry.scopes.now.scopes) place.row }
    {
        Frames {
            walk: Some(FrameWalk::of(tables, parents, place)),
        }
    }
}

impl<'a> Iterator for Frames<'a> {
    ghost use Rattle.std.specs.Iterator.{YieldsFirstBy, item_count};

    type Item = Frame<'a>;

    ghost next_gives = { YieldsFirstBy (λ frame. frame) (λ frames. frames) };

    ghost remaining = { item_count (λ frames. frames) };

    // Inlined: called for each frame.
    #[inline(always)]
    fn next(&mut self) -> Option<Frame<'a>> {
        let Some(walk) = &mut self.walk else {
            return None;
        };
        walk.next()
    }
}

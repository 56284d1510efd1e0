//! Abbreviation declarations (DWARF 5, 7.5.3).

ghost use Rattle.std.specs.{Prelude.{◌≡◌, ◌==◌, false, IfOk, IfSome}, List.list_any};
ghost use Rattle.dwarf_bytes.specs.Refusals.{ReadsNext};
ghost use Rattle.dwarf_forms.specs.Tables.{head_at};

use crate::attribute::AttributeSpecification;
use crate::code_index::CodeIndex;
use dwarf_bytes::{Cause, Cursor};
use std::marker::Model;

/// The fields of a declaration that precede its attributes.
#[derive(Clone, Copy, Debug)]
pub struct Head {
    pub code: u64,
    pub tag: u64,
    pub children: bool,
}

impl Head {
    /// Reads the next declaration up to its attributes, or returns `None` at the code 0. `codes`
    /// are the codes of the declarations before it, and `budget` is the maximum number of
    /// declarations.
    pub fn next(codes: &CodeIndex, budget: u64, cursor: &mut Cursor) -> Result<Option<Head>, Cause>
        ensures reads { ReadsNext result (λ bytes. head_at budget bytes codes.now)
            cursor.old cursor.new }
        ensures fresh { IfOk result (λ next. IfSome next (λ head.
            list_any (λ other. other == head.code) codes.now ≡ false)) }
    {
        let code = cursor.uleb()?;
        if code == 0 {
            return Ok(None);
        }
        if codes.len() as u64 >= budget {
            return Err(Cause::TooMany);
        }
        if codes.has(code) {
            return Err(Cause::AbbrevTwice);
        }
        let tag = cursor.uleb()?;
        let children = cursor.u8()?;
        if children > 1 {
            return Err(Cause::Children);
        }
        Ok(Some(Head {
            code,
            tag,
            children: children == 1,
        }))
    }
}

/// An abbreviation declaration with all its attributes.
#[derive(Debug, Drop)]
pub struct Decl {
    head: Head,
    attributes: Vec<AttributeSpecification>,
}

impl Model for Decl {
    ghost use Rattle.dwarf_forms.specs.Declarations.{Declaration};

    ghost Value = { Declaration };

    ghost view = { λ d. record {
      code = d.head.code;
      tag = d.head.tag;
      children = d.head.children;
      attributes = d.attributes.items;
    } };
}

impl Decl {
    pub(crate) fn new(head: Head, attributes: Vec<AttributeSpecification>) -> Decl
        ensures { result ≡ record {
          code = head.code;
          tag = head.tag;
          children = head.children;
          attributes = attributes.items;
        } }
    {
        Decl { head, attributes }
    }

    /// Returns the code by which entries refer to the declaration. It is never 0.
    pub fn code(&self) -> u64
        ensures { result ≡ self.now.code }
    {
        self.head.code
    }

    /// Returns the tag of the entries (DWARF 5, 7.5.3, table 7.3).
    pub fn tag(&self) -> u64
        ensures { result ≡ self.now.tag }
    {
        self.head.tag
    }

    /// Whether its entries have a list of children.
    pub fn children(&self) -> bool
        ensures { result ≡ self.now.children }
    {
        self.head.children
    }

    /// Returns the attributes of the entries, in order.
    pub fn attributes(&self) -> &[AttributeSpecification]
        ensures { result.now ≡ self.now.attributes }
    {
        &self.attributes
    }
}

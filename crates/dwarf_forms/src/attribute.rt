//! The attribute specifications of a declaration (DWARF 5, 7.5.3).

ghost use Rattle.std.specs.Prelude.{◌≡◌, ◌==◌, ◌&&◌, ◌||◌, [], length, is_none, List};
ghost use Rattle.std.specs.List.{list_any};
ghost use Rattle.dwarf_bytes.specs.{Forms.form_of, Items.{items_from, without_offset}};
ghost use Rattle.dwarf_bytes.specs.Refusals.{ReadsField, ReadsItems, ReadsNext};
ghost use Rattle.dwarf_forms.specs.Tables.{constant_at, attribute_at, attributes_at};
ghost use Rattle.dwarf_forms.specs.Private.Index.{ContainsNames};

use dwarf_bytes::constants::DW_FORM_IMPLICIT_CONST;
use dwarf_bytes::{Cause, Cursor, Form};
use std::alloc::Global;
use std::collections::BTreeSet;

/// An attribute specification: its name, its form, and the constant of DW_FORM_implicit_const.
#[derive(Clone, Copy, Debug, PartialEq, Eq)]
pub struct AttributeSpecification {
    pub name: u64,
    pub form: u64,
    pub constant: Option<i64>,
}

/// Reads the attribute specifications of a declaration, up to the two zeros that end them.
pub(crate) fn attributes(
    alloc: Global,
    cursor: &mut Cursor,
) -> Result<Vec<AttributeSpecification>, Cause>
    ensures { ReadsItems result attributes_at cursor.old cursor.new }
{
    let mut all = Vec::new(alloc);
    let mut names = BTreeSet::new(alloc);
    while let Some(next) = next_attribute(&names, cursor)? {
        names.insert(next.name)?;
        all.push(next)?;
    }
    Ok(all)
}

/// Reads the attribute specification at the cursor, as the first of its list. Returns `None` at the
/// two zeros that end a list.
// Inlined: called for each attribute of a table.
#[inline(always)]
pub fn first_attribute(
    alloc: Global,
    cursor: &mut Cursor,
) -> Result<Option<AttributeSpecification>, Cause>
    ensures { ReadsNext result (λ bytes. attribute_at bytes []) cursor.old cursor.new }
{
    next_attribute(&BTreeSet::new(alloc), cursor)
}

/// Reads the next attribute specification, or returns `None` at the two zeros that end them.
/// `names` contains the names of the attributes before it.
// Inlined: called for each attribute of a table.
#[inline(always)]
fn next_attribute(
    names: &BTreeSet<u64>,
    cursor: &mut Cursor,
) -> Result<Option<AttributeSpecification>, Cause>
    ensures { (before : List AttributeSpecification) → ContainsNames names.now before
        → ReadsNext result (λ bytes. attribute_at bytes before) cursor.old cursor.new }
{
    let name = cursor.uleb()?;
    let form = cursor.uleb()?;
    if is_end(name, form) {
        return Ok(None);
    }
    if is_refused(name, form) {
        return Err(Cause::Form);
    }
    if names.contains(&name) {
        return Err(Cause::AttrTwice);
    }
    let constant = constant(form, cursor)?;
    Ok(Some(AttributeSpecification {
        name,
        form,
        constant,
    }))
}

fn is_end(name: u64, form: u64) -> bool
    ensures { result ≡ ((name == 0) && (form == 0)) }
{
    name == 0 && form == 0
}

fn is_refused(name: u64, form: u64) -> bool
    ensures { result ≡ ((name == 0) || is_none (form_of form)) }
{
    name == 0 || Form::of(form).is_none()
}

/// Reads the constant that follows the form DW_FORM_implicit_const. Other forms have none.
fn constant(form: u64, cursor: &mut Cursor) -> Result<Option<i64>, Cause>
    ensures { ReadsField (λ constant. constant) result (constant_at form) cursor.old cursor.new }
{
    if form == DW_FORM_IMPLICIT_CONST {
        return Ok(Some(cursor.sleb()?));
    }
    Ok(None)
}

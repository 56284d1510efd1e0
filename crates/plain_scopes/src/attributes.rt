//! The attributes of an entry (DWARF 5, 2.2 and 7.5.3 to 7.5.6).

ghost use Rattle.std.specs.Prelude.{◌≡◌};
ghost use Rattle.dwarf_bytes.specs.{Contents.content_of, Forms.form_of};
ghost use Rattle.dwarf_bytes.specs.Refusals.{ReadsField, ReadsItems};
ghost use Rattle.dwarf_forms.specs.Values.{value_of as form_value, value_at};
ghost use Rattle.dwarf_units.specs.Attributes.{accepts, is_negative_count, number_of, is_among};
ghost use Rattle.dwarf_units.specs.Attributes.{string_forms, address_forms, count_forms};
ghost use Rattle.dwarf_units.specs.Attributes.{reference_forms};
ghost use Rattle.dwarf_units.specs.Entries.{is_direct, form_at, reading_value, attribute_at};
ghost use Rattle.dwarf_units.specs.Entries.{attributes_at};

use dwarf_bytes::constants::*;
use dwarf_bytes::{Cause, Content, Cursor, Form, Format};
use dwarf_forms::{AttributeSpecification, Value, ValueFault, value};
use dwarf_units::{Attribute, AttributeValue, is_address};
use std::alloc::Global;

/// Returns whether an attribute may have a form. Unused attributes may have any form.
fn accepts(name: u64, form: u64) -> bool
    ensures { result ≡ accepts name form }
{
    match name {
        DW_AT_NAME | DW_AT_LINKAGE_NAME => is_string(form),
        DW_AT_LOW_PC => is_address(form),
        DW_AT_HIGH_PC => is_address(form) || is_count(form),
        DW_AT_CALL_FILE | DW_AT_CALL_LINE => is_count(form),
        DW_AT_ABSTRACT_ORIGIN | DW_AT_SPECIFICATION => is_reference(form),
        DW_AT_RANGES => matches!(form, DW_FORM_SEC_OFFSET | DW_FORM_RNGLISTX),
        DW_AT_STMT_LIST | DW_AT_STR_OFFSETS_BASE | DW_AT_ADDR_BASE | DW_AT_RNGLISTS_BASE => {
            form == DW_FORM_SEC_OFFSET
        }
        _ => true,
    }
}

fn is_string(form: u64) -> bool
    ensures { result ≡ is_among string_forms form }
{
    matches!(
        form,
        DW_FORM_STRING
            | DW_FORM_STRP
            | DW_FORM_LINE_STRP
            | DW_FORM_STRX
            | DW_FORM_STRX1
            | DW_FORM_STRX2
            | DW_FORM_STRX3
            | DW_FORM_STRX4
    )
}

fn is_count(form: u64) -> bool
    ensures { result ≡ is_among count_forms form }
{
    matches!(
        form,
        DW_FORM_DATA1
            | DW_FORM_DATA2
            | DW_FORM_DATA4
            | DW_FORM_DATA8
            | DW_FORM_UDATA
            | DW_FORM_SDATA
            | DW_FORM_IMPLICIT_CONST
    )
}

fn is_reference(form: u64) -> bool
    ensures { result ≡ is_among reference_forms form }
{
    matches!(
        form,
        DW_FORM_REF_ADDR
            | DW_FORM_REF1
            | DW_FORM_REF2
            | DW_FORM_REF4
            | DW_FORM_REF8
            | DW_FORM_REF_UDATA
            | DW_FORM_REF_SIG8
    )
}

/// Returns whether the value of a used attribute is a negative count.
fn is_negative_count(name: u64, content: Content<'_>) -> bool
    ensures { result ≡ is_negative_count name (content_of content.entry) }
{
    match content {
        Content::Signed(number) => {
            matches!(name, DW_AT_HIGH_PC | DW_AT_CALL_FILE | DW_AT_CALL_LINE) && number < 0
        }
        _ => false,
    }
}

/// Returns a value as a number. `after` is the offset after its bytes. For a string in the entry
/// itself, returns the offset of the string.
fn number_of(content: Content<'_>, after: usize) -> u64
    ensures { result ≡ number_of (content_of content.entry) after }
{
    match content {
        Content::Number(number) => number,
        Content::Signed(number) => u64::try_from(number).unwrap_or(0),
        Content::Bytes(text) => after.saturating_sub(1).saturating_sub(text.len()) as u64,
    }
}

/// Returns the form of a value. DW_FORM_indirect reads the form from the cursor, before the value.
fn form(form: u64, cursor: &mut Cursor) -> Result<u64, Cause>
    ensures { ReadsField (λ form. form) result (form_at form) cursor.old cursor.new }
{
    if form != DW_FORM_INDIRECT {
        return Ok(form);
    }
    let inner = cursor.uleb()?;
    if !is_direct(inner) {
        return Err(Cause::Form);
    }
    Ok(inner)
}

fn is_direct(form: u64) -> bool
    ensures { result ≡ is_direct (form_of form) }
{
    matches!(Form::of(form), Some(Form::Direct(_)))
}

/// Reads the value at the cursor in a form.
fn value_in<'a>(
    form: u64,
    format: Format,
    constant: Option<i64>,
    cursor: &mut Cursor<'a>,
) -> Result<Value<'a>, Cause>
    ensures { ReadsField form_value result (λ bytes at. reading_value
        (value_at form format constant bytes at)) cursor.old cursor.new }
{
    match value(form, format, constant, cursor) {
        Ok(value) => Ok(value),
        Err(ValueFault::Form) => Err(Cause::Form),
        Err(ValueFault::Read(fault)) => Err(Cause::from(fault)),
    }
}

/// Reads the attribute at the cursor as its specification declares it.
fn attribute(
    format: Format,
    specification: &AttributeSpecification,
    cursor: &mut Cursor,
) -> Result<Attribute, Cause>
    ensures { ReadsField (λ a. a) result
        (attribute_at format specification.now) cursor.old cursor.new }
{
    let form = form(specification.form, cursor)?;
    if !accepts(specification.name, form) {
        return Err(Cause::AttrForm);
    }
    let value = value_in(form, format, specification.constant, cursor)?;
    if is_negative_count(specification.name, value.content) {
        return Err(Cause::AttrForm);
    }
    let number = number_of(value.content, cursor.place());
    Ok(Attribute {
        name: specification.name,
        value: AttributeValue { form, number },
    })
}

/// Reads the attributes of an entry at the cursor, as their specifications declare them.
#[tactic(auto, unfolding(crate::specs::Walk::attributes_at), using(crate::proofs::Fronts::next))]
pub(crate) fn attributes(
    alloc: Global,
    format: Format,
    specifications: &[AttributeSpecification],
    cursor: &mut Cursor,
) -> Result<Vec<Attribute>, Cause>
    ensures { ReadsItems result (attributes_at format specifications.now) cursor.old cursor.new }
{
    let mut all = Vec::new(alloc);
    for specification in specifications {
        all.push(attribute(format, specification, cursor)?)?;
    }
    Ok(all)
}

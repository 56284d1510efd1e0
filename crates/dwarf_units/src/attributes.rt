//! The attributes of entries: which ones the reader uses, and how their values are decoded (DWARF
//! 5, 2.2 and 7.5.3 to 7.5.6).

ghost use Rattle.std.specs.Prelude.{◌≡◌};
ghost use Rattle.dwarf_bytes.specs.{Contents.content_of, Refusals.ReadsField, Forms.form_of};
ghost use Rattle.dwarf_units.specs.Attributes.{is_used, accepts, is_negative_count, number_of};
ghost use Rattle.dwarf_units.specs.Attributes.{is_among, string_forms, address_forms, count_forms};
ghost use Rattle.dwarf_units.specs.{Attributes.reference_forms, Entries.{is_direct, form_at}};
ghost use Rattle.dwarf_units.specs.Entries.{reading_value, attribute_at};
ghost use Rattle.dwarf_forms.specs.Values.{value_of as form_value, value_at};

use crate::used_name::UsedName;
use dwarf_bytes::constants::*;
use dwarf_bytes::{Cause, Content, Cursor, Form, Format};
use dwarf_forms::{AttributeSpecification, Value, ValueFault, value};

/// The value of an attribute: its form, after DW_FORM_indirect is resolved, and its value as a
/// number. For a string in the entry itself, the number is the string's offset in the section.
#[derive(Clone, Copy)]
pub struct AttributeValue {
    pub form: u64,
    pub number: u64,
}

/// An attribute of an entry: its name (a DW_AT_ code) and its value.
#[derive(Clone, Copy)]
pub struct Attribute {
    pub name: u64,
    pub value: AttributeValue,
}

/// Returns whether the reader uses an attribute.
pub(crate) fn is_used(name: u64) -> bool
    ensures { result ≡ is_used name }
{
    UsedName::of(name).is_some()
}

/// Returns whether an attribute may have a form. Unused attributes may have any form.
pub(crate) fn accepts(name: u64, form: u64) -> bool
    ensures { result ≡ accepts name form }
{
    match name {
        DW_AT_NAME | DW_AT_LINKAGE_NAME => is_string(form),
        DW_AT_LOW_PC => is_address(form),
        DW_AT_HIGH_PC => is_address(form) || is_count(form),
        DW_AT_CALL_FILE | DW_AT_CALL_LINE => is_count(form),
        DW_AT_ABSTRACT_ORIGIN | DW_AT_SPECIFICATION => is_reference(form),
        DW_AT_RANGES => matches!(form, DW_FORM_SEC_OFFSET | DW_FORM_RNGLISTX),
        DW_AT_STMT_LIST | DW_AT_STR_OFFSETS_BASE | DW_AT_ADDR_BASE | DW_AT_RNGLISTS_BASE => {
            form == DW_FORM_SEC_OFFSET
        }
        _ => true,
    }
}

fn is_string(form: u64) -> bool
    ensures { result ≡ is_among string_forms form }
{
    matches!(
        form,
        DW_FORM_STRING
            | DW_FORM_STRP
            | DW_FORM_LINE_STRP
            | DW_FORM_STRX
            | DW_FORM_STRX1
            | DW_FORM_STRX2
            | DW_FORM_STRX3
            | DW_FORM_STRX4
    )
}

pub fn is_address(form: u64) -> bool
    ensures { result ≡ is_among address_forms form }
{
    matches!(
        form,
        DW_FORM_ADDR
            | DW_FORM_ADDRX
            | DW_FORM_ADDRX1
            | DW_FORM_ADDRX2
            | DW_FORM_ADDRX3
            | DW_FORM_ADDRX4
    )
}

fn is_count(form: u64) -> bool
    ensures { result ≡ is_among count_forms form }
{
    matches!(
        form,
        DW_FORM_DATA1
            | DW_FORM_DATA2
            | DW_FORM_DATA4
            | DW_FORM_DATA8
            | DW_FORM_SDATA
            | DW_FORM_UDATA
            | DW_FORM_IMPLICIT_CONST
    )
}

fn is_reference(form: u64) -> bool
    ensures { result ≡ is_among reference_forms form }
{
    matches!(
        form,
        DW_FORM_REF_ADDR
            | DW_FORM_REF1
            | DW_FORM_REF2
            | DW_FORM_REF4
            | DW_FORM_REF8
            | DW_FORM_REF_UDATA
            | DW_FORM_REF_SIG8
    )
}

/// Returns whether the value of a used attribute is a negative count.
pub(crate) fn is_negative_count(name: u64, content: Content<'_>) -> bool
    ensures { result ≡ is_negative_count name (content_of content.entry) }
{
    match content {
        Content::Signed(number) => {
            matches!(name, DW_AT_HIGH_PC | DW_AT_CALL_FILE | DW_AT_CALL_LINE) && number < 0
        }
        _ => false,
    }
}

/// Returns a value as a number. `after` is the offset after its bytes. For a string in the entry
/// itself, returns the offset of the string.
pub(crate) fn number_of(content: Content<'_>, after: usize) -> u64
    ensures { result ≡ number_of (content_of content.entry) after }
{
    match content {
        Content::Number(number) => number,
        Content::Signed(number) => u64::try_from(number).unwrap_or(0),
        Content::Bytes(text) => after.saturating_sub(1).saturating_sub(text.len()) as u64,
    }
}

/// Returns the form of a value. DW_FORM_indirect reads the form from the cursor, before the value.
fn form(form: u64, cursor: &mut Cursor) -> Result<u64, Cause>
    ensures { ReadsField (λ form. form) result (form_at form) cursor.old cursor.new }
{
    if form != DW_FORM_INDIRECT {
        return Ok(form);
    }
    let inner = cursor.uleb()?;
    if !is_direct(inner) {
        return Err(Cause::Form);
    }
    Ok(inner)
}

fn is_direct(form: u64) -> bool
    ensures { result ≡ is_direct (form_of form) }
{
    matches!(Form::of(form), Some(Form::Direct(_)))
}

/// Reads the attribute at the cursor as its specification declares it.
pub(crate) fn read_attribute(
    format: Format,
    specification: &AttributeSpecification,
    cursor: &mut Cursor,
) -> Result<Attribute, Cause>
    ensures { ReadsField (λ a. a) result
        (attribute_at format specification.now) cursor.old cursor.new }
{
    let form = form(specification.form, cursor)?;
    if !accepts(specification.name, form) {
        return Err(Cause::AttrForm);
    }
    let value = read_value(form, format, specification.constant, cursor)?;
    if is_negative_count(specification.name, value.content) {
        return Err(Cause::AttrForm);
    }
    let number = number_of(value.content, cursor.place());
    Ok(Attribute {
        name: specification.name,
        value: AttributeValue { form, number },
    })
}

/// Reads the value at the cursor in a form.
fn read_value<'a>(
    form: u64,
    format: Format,
    constant: Option<i64>,
    cursor: &mut Cursor<'a>,
) -> Result<Value<'a>, Cause>
    ensures { ReadsField form_value result (λ bytes at. reading_value
        (value_at form format constant bytes at)) cursor.old cursor.new }
{
    match value(form, format, constant, cursor) {
        Ok(value) => Ok(value),
        Err(ValueFault::Form) => Err(Cause::Form),
        Err(ValueFault::Read(fault)) => Err(Cause::from(fault)),
    }
}

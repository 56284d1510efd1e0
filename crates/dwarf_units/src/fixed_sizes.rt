//! The sizes of attributes (DWARF 5, 7.5.6).

ghost use Rattle.std.specs.Prelude.{◌≡◌};
ghost use Rattle.dwarf_bytes.specs.Forms.{byte_len};
ghost use Rattle.dwarf_units.specs.Private.FixedSizes.{constant_len, end_of, fixed_len, layout_len};
ghost use Rattle.dwarf_units.specs.Private.FixedSizes.{width_in};
ghost use Rattle.dwarf_units.specs.Private.Runs.{unchecked_layout, valid_layout};

use crate::attributes::{accepts, is_negative_count, is_used};
use dwarf_bytes::{Content, Form, Format, ValueLayout, Width};
use dwarf_forms::AttributeSpecification;

/// Returns the end of an attribute at an offset, if its size is fixed and the end at most 65,535.
pub(crate) fn end_of(
    format: Format,
    offset: u16,
    specification: &AttributeSpecification,
) -> Option<u16>
    ensures { result ≡ end_of format offset specification.now }
{
    offset.checked_add(fixed_len(format, specification)?)
}

/// Returns the size in bytes of every value of an attribute, if it is fixed and if such a value is
/// invalid only when bytes are missing.
// Inlined: called for each attribute of a table.
#[inline(always)]
#[tactic(auto, unfolding(crate::specs::Private::FixedSizes::fixed_len))]
pub(crate) fn fixed_len(format: Format, specification: &AttributeSpecification) -> Option<u16>
    ensures { result ≡ fixed_len format specification.now }
{
    if !accepts(specification.name, specification.form) {
        return None;
    }
    match Form::of(specification.form)? {
        // The values of a used attribute are numbers.
        Form::Direct(layout) if is_used(specification.name) => {
            Some(byte_len(width_in(format, layout)?))
        }
        Form::Direct(layout) => layout_len(format, layout),
        Form::ImplicitConst => constant_len(specification),
        Form::Indirect => None,
    }
}

/// Returns the layout of an attribute, if every value in this layout is valid.
#[tactic(auto, unfolding(crate::specs::Private::Runs::unchecked_layout))]
pub(crate) fn unchecked_layout(specification: &AttributeSpecification) -> Option<ValueLayout>
    ensures { result ≡ unchecked_layout specification.now }
{
    if !accepts(specification.name, specification.form) {
        return None;
    }
    match Form::of(specification.form)? {
        Form::Direct(layout) => valid_layout(specification.name, layout),
        Form::ImplicitConst | Form::Indirect => None,
    }
}

/// Returns a layout, if an attribute cannot have an invalid value in it.
fn valid_layout(name: u64, layout: ValueLayout) -> Option<ValueLayout>
    ensures { result ≡ valid_layout name layout }
{
    if is_used(name) && matches!(layout, ValueLayout::Signed) {
        return None;
    }
    Some(layout)
}

/// Returns the size of an attribute whose value is in its declaration: 0, if it is valid.
fn constant_len(specification: &AttributeSpecification) -> Option<u16>
    ensures { result ≡ constant_len specification.now }
{
    let constant = Content::Signed(specification.constant?);
    if is_negative_count(specification.name, constant) {
        return None;
    }
    Some(0)
}

/// Returns the size of every value in a layout, if it is fixed and if any bytes are a valid value.
fn layout_len(format: Format, layout: ValueLayout) -> Option<u16>
    ensures { result ≡ layout_len format layout }
{
    match layout {
        ValueLayout::Present => Some(0),
        ValueLayout::Sixteen => Some(16),
        _ => Some(byte_len(width_in(format, layout)?)),
    }
}

/// Returns the width of the values in a layout, if they are numbers of a fixed size.
pub(crate) fn width_in(format: Format, layout: ValueLayout) -> Option<Width>
    ensures { result ≡ width_in format layout }
{
    match (layout, format) {
        (ValueLayout::Fixed(width), _) => Some(width),
        (ValueLayout::Offset, Format::Dwarf32) => Some(Width::Four),
        (ValueLayout::Offset, Format::Dwarf64) => Some(Width::Eight),
        _ => None,
    }
}

fn byte_len(width: Width) -> u16
    ensures { result ≡ byte_len width }
{
    match width {
        Width::One => 1,
        Width::Two => 2,
        Width::Three => 3,
        Width::Four => 4,
        Width::Eight => 8,
    }
}

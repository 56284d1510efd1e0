//! Decoding of attribute values (DWARF 5, 7.5.5 and 7.5.6).

ghost use Rattle.std.specs.Prelude.{◌≡◌};
ghost use Rattle.dwarf_forms.specs.Values.{direct_at, value_at, ReadsValue};

use crate::values::{Value, ValueFault};
use dwarf_bytes::{Content, Cursor, Form, Format};

/// Reads a value in a form that is neither DW_FORM_indirect nor DW_FORM_implicit_const.
#[tactic(auto, unfolding(crate::specs::Values::direct_at))]
fn direct<'a>(form: u64, format: Format, cursor: &mut Cursor<'a>) -> Result<Value<'a>, ValueFault>
    ensures { ReadsValue result (direct_at form format) cursor.old cursor.new }
{
    match Form::of(form) {
        Some(Form::Direct(layout)) => match Content::read(layout, format, cursor) {
            Ok(content) => Ok(Value { form, content }),
            Err(fault) => Err(ValueFault::Read(fault)),
        },
        _ => Err(ValueFault::Form),
    }
}

/// Reads the value of a form at the cursor, in a unit of the given format. `constant` is the
/// declaration's constant, for DW_FORM_implicit_const. DW_FORM_indirect may be followed neither by
/// itself nor by DW_FORM_implicit_const. On a fault the cursor does not move.
#[tactic(auto, unfolding(crate::specs::Values::value_at))]
pub fn value<'a>(
    form: u64,
    format: Format,
    constant: Option<i64>,
    cursor: &mut Cursor<'a>,
) -> Result<Value<'a>, ValueFault>
    ensures { ReadsValue result (value_at form format constant) cursor.old cursor.new }
{
    let start = cursor.place();
    match Form::of(form) {
        None => Err(ValueFault::Form),
        Some(Form::Direct(_)) => direct(form, format, cursor),
        Some(Form::ImplicitConst) => match constant {
            Some(constant) => Ok(Value {
                form,
                content: Content::Signed(constant),
            }),
            None => Err(ValueFault::Form),
        },
        Some(Form::Indirect) => {
            let inner = match cursor.uleb() {
                Ok(inner) => inner,
                Err(fault) => return Err(ValueFault::Read(fault)),
            };
            let value = direct(inner, format, cursor);
            if value.is_err() {
                let _ = cursor.seek(start);
            }
            value
        }
    }
}

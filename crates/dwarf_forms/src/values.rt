//! Attribute values.

use dwarf_bytes::{Content, ReadFault};
use thiserror::Error;

/// A value with its form. For DW_FORM_indirect this is the actual form, which precedes the value.
#[derive(Clone, Copy, Debug)]
pub struct Value<'a> {
    pub form: u64,
    pub content: Content<'a>,
}

/// Why a value could not be read.
#[derive(Clone, Copy, Debug, PartialEq, Eq, Error)]
pub enum ValueFault {
    /// The bytes do not encode a value of the form.
    #[error("{0}")]
    Read(ReadFault),
    /// The form is not supported, is not allowed after DW_FORM_indirect, or is
    /// DW_FORM_implicit_const without a constant.
    #[error("form")]
    Form,
}

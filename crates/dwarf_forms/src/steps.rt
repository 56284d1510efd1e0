//! The steps of parsing a table, for a reader that stores its declarations in another form.

pub use crate::attribute::first_attribute;
pub use crate::code_index::CodeIndex;
pub use crate::declaration::Head;

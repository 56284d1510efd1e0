//! Numbers, strings, attribute values and ELF sections, decoded from bytes: DWARF 5, chapter 7, and
//! the ELF-64 object file format.
#![tactic(auto)]

pub mod constants;
mod content;
mod conversions;
mod cursor;
mod fault;
mod fields;
mod form;
mod format;
mod header_tests;
mod headers;
pub mod laws;
mod layout;
mod leb;
mod object;
mod section_names;
mod tables;
mod text;
mod text_index;
mod widths;
mod words;

pub use content::Content;
pub use cursor::Cursor;
pub use fault::{Cause, LoadFault, ReadFault, Section};
pub use form::{Form, ValueLayout, Width};
pub use format::Format;
pub use layout::{Layout, Span};
pub use object::Object;
pub use tables::{TableHead, TableKind};
pub use text::{Text, strings_end, text_at};
pub use text_index::TextIndex;

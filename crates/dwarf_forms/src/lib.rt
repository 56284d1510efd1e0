//! Abbreviation tables, and the attribute values that they describe: DWARF 5, 7.5.3 to 7.5.6.
#![tactic(auto)]

mod attribute;
mod code_index;
mod declaration;
pub mod laws;
mod reading;
pub mod steps;
mod table;
mod values;

pub use attribute::AttributeSpecification;
pub use declaration::Decl;
pub use dwarf_bytes::Content;
pub use reading::value;
pub use table::Abbrevs;
pub use values::{Value, ValueFault};

//! Units of `.debug_info`, their abbreviation tables and the attributes of entries (DWARF 5, 7.5).
#![tactic(auto)]

mod abbreviation_table;
mod attribute_run;
mod attribute_runs;
mod attributes;
mod cached_table;
mod entry_head;
mod fixed_sizes;
pub mod laws;
mod linked_lists;
mod node_layout;
mod table_store;
mod tables;
mod unit_headers;
mod unit_table;
mod used_attributes;
mod used_name;
mod used_position;
mod value_slot;

pub use attributes::{Attribute, AttributeValue, is_address};
pub use entry_head::EntryHead;
pub use node_layout::NodeShape;
pub use tables::Tables;
pub use unit_headers::{UnitHeader, UnitType, units};
pub use unit_table::UnitTable;
pub use used_attributes::{EntryValues, UsedAttributes};
pub use used_name::UsedName;
pub use value_slot::{FixedSizeEntry, FixedSizeValues};

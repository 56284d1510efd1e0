//! Loaded objects, each with a name and a base. Finds the module that contains an address and the
//! answer of the module. A bounded cache stores answers by the serial number of a load and the link
//! address.
#![tactic(auto)]

mod answer;
mod asked;
mod cache;
mod cached_lookup;
mod faults;
mod listing;
mod loaded_module;
mod modules;
mod prefetch;
mod sorted;

pub use addr_table::{Frame, Frames, Path, Site, Steps};
pub use answer::Answer;
pub use asked::{Asked, Found};
pub use dwarf_bytes::LoadFault;
pub use faults::{Extent, MapFault};
pub use listing::Listing;
pub use modules::Modules;
pub use prefetch::PREFETCHED;

//! The I/O streams of a run, its source of objects, its options, and the faults that end it.
#![tactic(auto)]

mod device;
mod faults;
mod options;
mod streams;

pub use device::Device;
pub use faults::{ExeFault, FetchFault, RunFault};
pub use options::Options;
pub use streams::{DeviceFault, Feed, Objects, Sink};

//! Parses the command line: its options, its addresses, and numbers as both the command line and
//! commands have them.
#![tactic(auto)]

mod command;
mod faults;
mod help;
mod matches;
mod numbers;
mod settings;
mod words;

pub use faults::{BAD_ADDRESS, CliFault};
pub use numbers::parse_number;
pub use settings::options;

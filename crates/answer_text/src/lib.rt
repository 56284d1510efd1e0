//! Formats answers as the options ask, and writes them through a buffer.
#![tactic(auto)]

mod frame_text;
mod numerals;
mod paths;
mod pending;
mod printable;
mod printing;

pub use numerals::address_text;
pub use pending::{Pending, write_texts};
pub use printing::{print, write_answer};

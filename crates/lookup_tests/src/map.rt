//! Tests of `module_map` on the sample objects.

mod answers;
mod cache;
mod changes;
mod fixtures;
mod many;
mod memory;
mod messages;

//! Tests of `dwarf_bytes` over worked examples and the sample objects.

mod elf;
mod messages;
mod names;
mod numbers;
mod strings;
mod tables;
mod values;

//! Tests of `dwarf_forms` and `abbreviation_memo`.

mod both_readers;
mod shared;
mod tables;
mod values;

//! Tests of the crates that read sections: `dwarf_bytes`, `dwarf_lines`, `dwarf_forms` and
//! `abbreviation_memo`, on worked examples and on the sample objects.
#![tactic(auto)]

#[cfg(test)]
mod bytes;
#[cfg(test)]
mod checks;
#[cfg(test)]
mod forms;
#[cfg(test)]
mod lines;

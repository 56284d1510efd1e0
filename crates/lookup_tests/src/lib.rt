//! Tests of the crates that look up addresses, `addr_table` and `module_map`, with hand-computed
//! answers.
#![tactic(auto)]

#[cfg(test)]
mod checks;
#[cfg(test)]
mod map;
#[cfg(test)]
mod table;

//! Tests of `dwarf_entries` on small objects, with results computed by hand.
#![tactic(auto)]

#[cfg(test)]
mod attributes;
#[cfg(test)]
mod bases;
#[cfg(test)]
mod both_readers;
#[cfg(test)]
mod checks;
#[cfg(test)]
mod codes;
#[cfg(test)]
mod fixtures;
#[cfg(test)]
mod formats;
#[cfg(test)]
mod headers;
#[cfg(test)]
mod limits;
#[cfg(test)]
mod long_entries;
#[cfg(test)]
mod many_scopes;
#[cfg(test)]
mod names;
#[cfg(test)]
mod overlapping_tables;
#[cfg(test)]
mod pairs;
#[cfg(test)]
mod passes;
#[cfg(test)]
mod range_limits;
#[cfg(test)]
mod ranges;
#[cfg(test)]
mod references;
#[cfg(test)]
mod rereading;
#[cfg(test)]
mod samples;
#[cfg(test)]
mod shared;
#[cfg(test)]
mod strings;
#[cfg(test)]
mod tables;
#[cfg(test)]
mod tombstones;
#[cfg(test)]
mod truncated;
#[cfg(test)]
mod units;

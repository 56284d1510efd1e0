//! Tests of `addr_table` on small objects.

mod changed_bytes;
mod faults;
mod fixtures;
mod frames;
mod places;
mod plain_scan;
mod samples;
mod segments;
mod truncated;

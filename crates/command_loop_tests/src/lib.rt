//! Tests of `command_loop`: whole runs over the sample objects, with devices that fail on request,
//! and the options of command lines.
#![tactic(auto)]

#[cfg(test)]
mod answers;
#[cfg(test)]
mod checks;
#[cfg(test)]
mod commands;
#[cfg(test)]
mod devices;
#[cfg(test)]
mod failures;
#[cfg(test)]
mod files;
#[cfg(test)]
mod fixtures;
#[cfg(test)]
mod formats;
#[cfg(test)]
mod help;
#[cfg(test)]
mod messages;
#[cfg(test)]
mod options;
#[cfg(test)]
mod recorder;
#[cfg(test)]
mod refusals;
#[cfg(test)]
mod shelf;
#[cfg(test)]
mod sources;
#[cfg(test)]
mod starts;
#[cfg(test)]
mod turns;

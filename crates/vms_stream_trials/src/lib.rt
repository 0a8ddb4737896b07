//! Trials of the crates between the grammar and the commands: devices of the standard library, and the totals of what a
//! scripter gave.
#![tactic(auto)]

#[cfg(test)]
mod devices;
#[cfg(test)]
mod headers;
#[cfg(test)]
mod scripts;

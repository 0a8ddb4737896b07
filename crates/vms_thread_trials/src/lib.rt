//! Trials of the control handle of counters: it buries a dead CPU once, and no other.
#![tactic(auto)]

#[cfg(test)]
mod burials;
#[cfg(test)]
mod machines;

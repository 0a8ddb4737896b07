//! Writes the lines of a phase's page events, in the order of the phase's own lines.
#![tactic(auto)]

mod calls;
mod formulas;
mod lanes;
mod phases;

pub use phases::PhaseWriter;

//! Judges a written history of page events line after line: phase by phase from the page counters that a run begins
//! with, through the boundary lines. What walks along a lane's lines is a trait.
#![tactic(auto)]

mod bounds;
mod checks;
mod errors;
mod laws;

pub use bounds::BoundaryAt;
pub use checks::{Counted, HistoryCheck};
pub use errors::CheckError;
pub use laws::{faults_are_final, lines_have_one_verdict};

//! The judge of the command `certify`: it keeps the boundary lines and the phases of a trace, and judges the lines of a
//! history by them. What walks along a lane's lines is a trait.
#![tactic(auto)]

mod judges;
mod laws;

pub use judges::Judge;
pub use laws::judged_faults_are_final;

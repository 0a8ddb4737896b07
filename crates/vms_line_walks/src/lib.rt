//! The walk along a lane's lines by which the check of a written phase goes: under the kernel's rules of thresholds,
//! with what the registers of the page counters show.
#![tactic(auto)]

mod line_walks;
mod shown_peaks;

pub use line_walks::LineWalk;

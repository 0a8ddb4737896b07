//! The calls by which the control pass sets thresholds and drift marks while other threads change the page counters.
//! Each call makes single steps, with no wait, no refusal and no memory. A zone's mark is set before its thresholds.
#![tactic(auto)]

mod nodes;
mod online;
mod rating;
mod refreshing;
mod visiting;

pub use nodes::{set_normal, set_pressure};
pub use refreshing::refresh_thresholds;

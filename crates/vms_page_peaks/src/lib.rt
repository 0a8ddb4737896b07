//! What CPUs have spent and may hide after a history of page counters, so that changes, thresholds and marks are
//! allowed or refused in constant time.
#![tactic(auto)]

mod conditions;
mod covering;
mod opening;
mod peaks;
mod steps;

pub use covering::covers;
pub use opening::opening_peak;
pub use peaks::{Newest, PagePeaks};

//! How far the numbers of the page counters may be from the truth, in terms of what a reader can know of a machine: how
//! many CPUs are present, which thresholds stand, what a call carries between its steps, and where a drift mark comes
//! to stand.
#![tactic(auto)]

mod marks;
mod present;
mod thresholds;
mod transit;

pub use marks::{calls_settle_marks, visits_leave_marks};
pub use present::numbers_stay_near_totals;
pub use thresholds::newest_thresholds_bound_drift;
pub use transit::calls_carry_little;

//! What printed answers mean: how far the numbers that the lines of a phase answer, and those that a report tells, are
//! from the truth, and when.
#![tactic(auto)]

mod calls;
mod phases;
mod worlds;

pub use calls::calls_answer_truly;
pub use phases::{phases_answer_truly, phases_carry_little, phases_fly_little};
pub use worlds::reports_are_near;

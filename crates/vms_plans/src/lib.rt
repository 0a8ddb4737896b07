//! Plans of the calls on the page counters: which step of a call is due, given those that were made, and which steps
//! run through a plan.
#![tactic(auto)]

mod due_steps;
mod laws;

pub use due_steps::DueStep;
pub use laws::{plans_are_the_calls, plans_stay_open};

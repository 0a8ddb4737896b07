//! Which answers of the rules of thresholds matter to a written history: those that are asked for, of a valid size and
//! 1 to 128 online CPUs.
#![tactic(auto)]

mod laws;

pub use laws::{asked_answers_decide, made_phases_are_written};

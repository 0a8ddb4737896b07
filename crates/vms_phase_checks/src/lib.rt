//! Judges the page events of one phase one after another: whether each is legal, and whether the passes keep to the
//! lines of their lanes. What walks along a lane's lines is a trait.
#![tactic(auto)]

mod checks;
mod due_events;
mod faults;
mod lane_acts;
mod lane_walks;
mod laws;
mod slots;
mod told_steps;
mod walks;

pub use checks::PhaseCheck;
pub use due_events::DueEvent;
pub use faults::EventCause;
pub use lane_acts::LaneActs;
pub use laws::{kept_phases_are_written, written_phases_keep_to_lines};
pub use walks::LaneWalk;

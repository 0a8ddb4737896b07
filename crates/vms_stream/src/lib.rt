//! A command over a text that is read and whose output is written piece by piece. Its phases are made by an engine, and
//! what it prints depends on the outcomes of the phases that end at its lines.
#![tactic(auto)]

mod courses;
mod jobs;
mod laws;
mod statuses;
mod streaming;
mod taking;

pub use jobs::Job;
pub use laws::{longer_outcomes, outcomes_stand_in_way, plain_commands_say_plainly};
pub use statuses::Status;
pub use streaming::stream;

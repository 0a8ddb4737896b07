//! A phase of lines, made in file order on plain data: what it leaves, and what its lines answer.
#![tactic(auto)]

mod laws;
mod lines;
mod open_replays;
mod phases;
mod takers;
mod volumes;

pub use laws::volumes_count_phases;
pub use phases::replay_phase;
pub use takers::AnswerTaker;

//! When page events that anyone wrote are a history of a trace: legal and complete, phase by phase, each lane's own
//! events those of its lines.
#![tactic(auto)]

mod laws;

pub use laws::{runs_are_written, written_phases_begin_so};

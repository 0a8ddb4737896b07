//! Jobs that are made side by side, each but the first on a thread of its own, which the calling thread starts, and the
//! gate that a job may call before each of its lines.
#![tactic(auto)]

mod gates;
mod threads;

pub use gates::{Gate, OpenGate};
pub use threads::map_jobs;

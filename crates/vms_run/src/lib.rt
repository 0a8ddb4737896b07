//! The commands `run` and `gen`: the engine that makes each phase of a trace with a thread for each lane, and keeps the
//! histories of the phases. The answers of the lanes are handed on in the order of the lines.
#![tactic(auto)]

mod handing;
mod run_phases;
mod runners;
mod running;
mod scoped;
mod standing;
mod threads;
mod tool;

pub use handing::hand_on;
pub use run_phases::{Histories, RunPhase};
pub use runners::{PhaseMaker, PhaseRunner};
pub use threads::OnThreads;
pub use tool::{tool_gen, tool_run};
pub use vms_jobs::{Gate, OpenGate};

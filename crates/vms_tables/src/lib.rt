//! The three tables of a phase while threads change them, and the passes of a lane on them.
#![tactic(auto)]

mod passes;
mod tables;

pub use passes::CpuPasses;
pub use tables::{MainPasses, Tables};

//! The command `groups`: it runs a trace of a tree of groups, each lane of a phase on a thread of its own, and prints
//! refusals, values and reports in the order of its lines.
#![tactic(auto)]

mod bodies;
mod engines;
mod jobs;
mod laws;
mod open_phases;
mod printing;
mod runners;
mod runs;
mod tallies;
mod threads;
mod tool;
mod waits;

pub use laws::phases_lead_through_texts;
pub use runs::{GroupRun, GroupRuns};
pub use tool::tool_groups;
pub use vms_group_phase::Gate;

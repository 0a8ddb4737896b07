//! Phases of a group trace: a thread for each lane that has lines makes the lane's lines on one shared tree of groups,
//! and what they make is a phase of these lines, whatever the interleaving.
#![tactic(auto)]

mod calls;
mod counted_items;
mod items;
mod jobs;
mod lanes;
mod laws;
mod phases;
mod threads;
mod values;
mod volumes;
mod worlds;

pub use items::{GroupItem, NumberedValue};
pub use laws::{group_phases_add_their_lines, group_phases_keep_laws, group_phases_lead_on};
pub use phases::{GroupPhaseDone, run_group_phase};
pub use vms_jobs::Gate;
pub use worlds::GroupWorld;

//! Phases whose lanes run side by side: the passes of the lanes begin and end in turn, and what they make is a phase of
//! the lines, whatever the order in which the lanes' steps came.
#![tactic(auto)]

mod closings;
mod control_passes;
mod jobs;
mod joins;
mod lane_joins;
mod laws;
mod main_laws;
mod passes;
mod phases;
mod placing;
mod plans;
mod rooms;
mod rule_laws;
mod rules;
mod runs;
mod side_by_side;
mod threads;
mod turns;
mod volumes;

pub use closings::{ClosedHistories, close, tables_are_told};
pub use control_passes::{begin_control, join_control};
pub use jobs::{LaneDone, LaneJob, begin_cpu_lanes, begin_lanes, run_job};
pub use joins::{fitting_lanes_have_ended, lanes_go_in_turn};
pub use lane_joins::{JoinedLane, join_lanes};
pub use laws::{fitting_lanes_make_phases, lanes_make_phases};
pub use main_laws::{acts_stay_made, lanes_begin_and_end, whole_lanes};
pub use passes::{begin_cpu, join_cpu};
pub use phases::{PhaseDone, end_phase, run_phase};
pub use placing::place_answers;
pub use plans::Plan;
pub use rooms::{fitting_jobs_may_run, fitting_lanes_have_room};
pub use rule_laws::lanes_make_phases_by;
pub use runs::{join_run_jobs, joined_lanes_are_made, run_lanes};
pub use threads::run_jobs;
pub use turns::{fresh_cpus_have_spent_nothing, lanes_begin_in_turn, lanes_end_in_turn};
pub use vms_jobs::{Gate, OpenGate};
pub use vms_lane::Host;
pub use volumes::keep_volumes;

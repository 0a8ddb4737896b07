//! Phases whose lanes run on threads that stand over the whole run: what comes back of a lane is known to be of this
//! phase, its tables and its lines.
#![tactic(auto)]

mod copies;
mod jobs;
mod lanes;
mod owners;
mod phases;
mod shares;
mod works;

pub use copies::{copied_header, copied_script};
pub use lanes::make_job;
pub use phases::run_standing_phase;
pub use shares::{PhaseShare, StandingJob};
pub use works::LaneCrew;

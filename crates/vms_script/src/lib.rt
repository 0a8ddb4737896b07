//! Which lines of a body count, by the lines above them, the scripts of their phases, and the plain totals of those.
#![tactic(auto)]

mod cpus;
mod effects;
mod judges;
mod lane_scripts;
mod laws;
mod phase_scripts;
mod scripters;
mod totals;
mod volumes;

pub use judges::{JudgedLine, LineJudge};
pub use lane_scripts::{LaneItem, LaneScript};
pub use laws::{
    boundaries_cut, fitting_scripts_stay_within, lines_make_one_phase, segments_have_all_lines,
    segments_may_stand,
};
pub use phase_scripts::{PhaseScript, is_of};
pub use scripters::{Fed, FeedError, Scripter};
pub use totals::{PageTotals, plain_totals};

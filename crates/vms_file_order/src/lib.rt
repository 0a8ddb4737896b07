//! Phases in file order: the passes of the lanes with lines begin, the lines follow one another and meet no other
//! caller, and the passes end. What such a history is stands here once for every table, and then for the three
//! together.
#![tactic(auto)]

mod burials;
mod cpu_states;
mod fitting_lines;
mod histories;
mod judged_lines;
mod lanes;
mod open_phases;
mod phases;
mod tables;
mod volumes;
mod world_starts;

pub use burials::{burials_leave_nothing, lines_bury_who_goes_absent, phases_bury_who_goes_absent};
pub use cpu_states::cpu_states_follow_lines;
pub use fitting_lines::{fitting_lines_follow, fitting_phases_open, fronts_fit};
pub use histories::{closings_complete, file_order_makes_lines, lines_stand, openings_stand};
pub use judged_lines::{judged_lines_fit, starts_go_by_all_lines};
pub use lanes::lanes_stand_once;
pub use open_phases::{open_phases_close, open_phases_go_on, phases_open};
pub use phases::{
    file_order_makes_phases, file_order_meets_nobody, made_phases_are_phases, phases_keep_all_laws,
};
pub use tables::{EventLines, LineTable, PageLines, PcpuLines};
pub use volumes::{fitting_lines_stay_within_volumes, phases_spend_their_lines};
pub use world_starts::{
    fitting_boundaries_cross, fitting_phases_are_phases, runs_begin_with_first_start,
    runs_keep_starts,
};

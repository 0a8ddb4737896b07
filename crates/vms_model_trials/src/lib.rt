//! Facts of small machines: how far numbers are from the truth in histories of four CPUs, and what the model says of
//! peaks and of kswapd on a machine of one CPU.
#![tactic(auto)]

mod bounds;
mod peaks;
mod stories;
mod turns;

pub use bounds::{
    carried_amounts_are_reached, marks_come_to_stand, newest_thresholds_are_reached,
    present_bound_is_reached, slack_is_reached, snapshots_reach_their_bound,
    tests_reach_both_bounds,
};
pub use peaks::{newest_acknowledgement_settles, uncovered_and_unearned_are_illegal};
pub use turns::{covered_threshold_may_be_set, smaller_area_comes_first, turns_are_read};

//! The page counters as a model: states, the eighteen kinds of atomic step, legal histories, and what holds of each.
#![tactic(auto)]

mod changes;
mod differentials;
mod laws;
mod plain;
mod readers;
mod states;
mod steps;
mod tables;

pub use differentials::overstep;
pub use laws::{
    complete_histories_carry_nothing, control_steps_stay_allowed, exchanges_win_or_miss,
    laws_are_kept, main_pass_knows_what_is_free, mark_numbers_grow, marks_stand_between_loads,
    offline_groups_are_found_once, own_steps_stay_allowed, owners_spend_by_own_steps,
    passes_know_what_they_own, settled_ends_may_begin, steps_change_numbers, systems_keep_off,
};
pub use plain::Plain;
pub use states::{Acks, Longs, MarkRead, Marks, Smalls, State, States, Threshold};
pub use steps::{Event, Facts, Step};
pub use tables::Pages;

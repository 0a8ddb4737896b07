//! Histories of the steps that several callers make on one table, and the laws that hold of every legal one.
//!
//! A table says what its steps mean by a record, its machine. What the passes may do, the state after a history and
//! the laws on passes, prefixes and sums stand here once, for every table, and what a caller makes that meets no
//! other: its steps follow one another in a row, and each tells what stands.
#![tactic(auto)]

mod alone;
mod events;
mod laws;
mod state_tables;

pub use alone::steps_go_on_alone;
pub use events::Event;
pub use laws::{
    Table, acting_goes_by_own_events, ended_is_over, free_cpus_are_left_alone, histories_extend,
    histories_go_on, live_is_given, made_steps_add_up, main_changes_passes, newest_event_is_legal,
    newest_own_parts, not_given_is_unused, nothing_follows, one_live_owner, others_change_no_pass,
    own_after_steps, own_at_is_own, own_events_are_legal, own_of_list, owner_may_own, owner_stays,
    prefix_is_legal, quiet_steps_leave, role_changes_passes, steps_in_a_row, sum_goes_by_values,
    total_adds_up, total_by_caller, who_may_act,
};
pub use state_tables::StateTable;

ghost use Rattle.vms_history.specs.Legal.{Machine, IsQuiet};

mod callers;
mod own_at;
mod pass_steps;
mod passes;
mod prefixes;
mod sums;

pub use callers::{histories_extend, own_after_steps, own_of_list, steps_in_a_row};
pub use own_at::{newest_own_parts, own_at_is_own, own_events_are_legal};
pub use pass_steps::{
    free_cpus_are_left_alone, histories_go_on, made_steps_add_up, quiet_steps_leave,
};
pub use passes::{
    acting_goes_by_own_events, ended_is_over, live_is_given, main_changes_passes,
    not_given_is_unused, nothing_follows, one_live_owner, others_change_no_pass, owner_may_own,
    owner_stays, role_changes_passes, who_may_act,
};
pub use prefixes::{newest_event_is_legal, prefix_is_legal};
pub use sums::{sum_goes_by_values, total_adds_up, total_by_caller};

/// A table that several passes change by steps. Its machine says of each step what it does to the passes, when it may
/// be made, and which state stands after it.
pub trait Table {
    /// What is known of the table from the start.
    type Facts;

    /// One atomic operation.
    type Step;

    ghost State: { Type 0 };

    ghost machine: { Machine Self.Facts Self.Step State };

    // What begins or ends a pass leaves the table as it is.
    ghost quiet: { IsQuiet machine };
}

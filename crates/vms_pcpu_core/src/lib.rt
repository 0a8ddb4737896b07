//! The percpu counters as a model: states, the ten kinds of atomic step, legal histories, and what holds of each.
#![tactic(auto)]

mod allowed_steps;
mod answers;
mod callers;
mod calls;
mod endings;
mod folding;
mod knowledge;
mod laws;
mod limits;
mod pcpu_calls;
mod states;
mod steps;
mod summing;
mod tables;

pub use allowed_steps::{calls_may_be_made, calls_stand_in_histories};
pub use answers::{Compare, PcpuAnswer};
pub use callers::{
    callers_go_by_own_steps, calls_add_their_amounts, calls_leave_callers_idle,
    calls_spend_their_amounts, owners_spend_by_own_steps,
};
pub use calls::{
    add_is_told, compare_is_told, fold_dead_is_told, limited_add_is_told, read_is_told,
    sum_is_told, sync_is_told,
};
pub use endings::{complete_histories_hold_totals, complete_histories_leave_bases};
pub use folding::fold_dead_empties_local_parts;
pub use knowledge::{holder_acts_alone, own_part_stays, rough_sign_is_true, sum_is_true_total};
pub use laws::{laws_are_kept, steps_name_small_numbers};
pub use limits::{limited_add_alone_is_exact, limited_add_keeps_limit};
pub use pcpu_calls::{PcpuCall, calls_keep_their_laws};
pub use states::PcpuState;
pub use steps::{Event, PcpuFacts, PcpuStep};
pub use summing::{compare_tells_sign, sum_reads_true_total, sums_are_small};
pub use tables::Percpu;

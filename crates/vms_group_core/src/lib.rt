//! A tree of groups as a model: words, the eight kinds of atomic step, legal histories, and what holds of each.
#![tactic(auto)]

mod call_values;
mod calls;
mod laws;
mod states;
mod steps;
mod tables;
mod trees;

pub use call_values::{GroupAnswer, GroupCall};
pub use calls::{answers_are_read, calls_carry_nothing, calls_may_be_made, changes_alone_spend};
pub use laws::{
    complete_histories_hold_totals, complete_histories_leave_bases, laws_are_kept,
    owners_spend_by_own_steps, spending_is_known, subtrees_go_by_parents, zeros_are_a_base,
};
pub use states::GroupState;
pub use steps::{Event, GroupFacts, GroupStep};
pub use tables::Groups;
pub use trees::{Parents, Tree};

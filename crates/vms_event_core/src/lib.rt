//! The event counters as a model: words, the six kinds of atomic step, legal histories, and what holds of each.
#![tactic(auto)]

mod call_values;
mod calls;
mod laws;
mod states;
mod steps;
mod tables;

pub use call_values::{EventAnswer, EventCall};
pub use calls::{
    answers_are_read, calls_carry_nothing, calls_may_be_made, counts_alone_spend,
    folded_words_are_zero, online_words_grow,
};
pub use laws::{
    complete_histories_hold_totals, complete_histories_leave_bases, laws_are_kept,
    owners_spend_by_own_steps, spending_is_known,
};
pub use states::EventState;
pub use steps::{Event, EventFacts, EventStep};
pub use tables::Events;

//! The event counters as words that threads share: what each call makes is its steps of the model, whatever other
//! threads do meanwhile.
#![tactic(auto)]

mod calls;
mod counting;
mod folding;
mod laws;
mod passes;
mod places;
mod summing;
mod tables;

pub use laws::{AnyEventPass, cpus_share_no_line, totals_are_kept};
pub use passes::{EventCaller, EventControl, EventPass};
pub use tables::{EventHistory, EventMain, EventTable, SharedEvents};

//! A tree of groups as words that threads share: what each call makes is its steps of the model, whatever other threads
//! do meanwhile.
#![tactic(auto)]

mod changing;
mod flushing;
mod laws;
mod ledgers;
mod passes;
mod places;
mod reading;
mod stepping;
mod tables;

pub use laws::{AnyGroupPass, cpus_share_no_line, totals_are_kept};
pub use ledgers::SharedGroups;
pub use passes::GroupPass;
pub use tables::{GroupHistory, GroupMain, GroupTable};

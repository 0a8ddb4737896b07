//! Makes calls on plain page counters and writes the events of each, by what stands in them.
#![tactic(auto)]

mod burials;
mod calls;
mod changes;
mod folds;
mod loads;
mod looks;
mod orders;
mod tests;
mod turns;

pub use calls::write_call;

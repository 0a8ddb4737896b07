//! Acts of a lane's pass by its own events alone: how far it has gone along them, and that this is so in one way.
#![tactic(auto)]

mod laws;
mod rules;

pub use laws::{acts_are_cut_one_way, acts_go_by_own_events};
pub use rules::{ExactRules, RuleFunctions};

//! What a judge tells of a list of events, and what it is told of each step, for every table.
//!
//! A verdict says by the definition of a legal history which event is the first that isn't legal, or that there is
//! none. At most one is true.
#![tactic(auto)]

mod laws;
mod roles;
mod tables;
mod verdicts;

pub use laws::one_verdict;
pub use roles::Role;
pub use tables::RoleTable;
pub use verdicts::Verdict;

//! The burial of a dead CPU in the three tables that threads share.
#![tactic(auto)]

mod burying;
mod passes;
mod rules;

pub use burying::bury;
pub use passes::ControlPasses;

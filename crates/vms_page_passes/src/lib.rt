//! What the passes in their slots did so far, as far as the conditions of their next steps ask for it: what each found
//! and loaded of its own CPU, and what it carries.
#![tactic(auto)]

mod amounts;
mod changes;
mod conditions;
mod notes;
mod opening;
mod passes;
mod steps;

pub use passes::PagePasses;

//! The page counters between two phases, under the kernel's rules of thresholds: those that a run begins with, and what
//! a boundary line makes of them.
#![tactic(auto)]

mod crossings;

pub use crossings::{cross, first_pages};

//! The numbers of the page counters that stand after a history, and which conditions of steps they meet.
#![tactic(auto)]

mod cells;
mod conditions;
mod leaving;
mod opening;
mod steps;
mod words;

pub use words::PageWords;

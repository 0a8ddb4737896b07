//! What the page counters keep of a history, so that the conditions of its steps are decided in constant time.
#![tactic(auto)]

mod bases;
mod conditions;
mod covering;
mod openings;
mod registers;
mod tables;

pub use registers::PageRegisters;

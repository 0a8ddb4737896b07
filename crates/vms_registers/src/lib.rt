//! Judges a list of events in time that grows with its length, for every table that keeps registers: who stands in
//! which slot, and beside it what the table itself keeps of a legal history.
#![tactic(auto)]

mod judging;
mod passes;
mod registers;
mod tables;

pub use judging::judge;
pub use registers::Registers;
pub use tables::{TableRegisters, owner_at};

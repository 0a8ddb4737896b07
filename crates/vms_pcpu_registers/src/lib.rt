//! What the percpu counters keep of a history, so that the conditions of its steps are decided in constant time.
#![tactic(auto)]

mod bases;
mod conditions;
mod opening;
mod registers;
mod steps;
mod tables;

pub use registers::PcpuRegisters;

//! What the programs have in common that measure calls on shared counters: a machine, its page counters as words that
//! threads share, and passes on them for threads.
#![tactic(auto)]

mod levels;
mod machines;
mod tables;

pub use machines::{Distance, MOST_THREADS, cpu_of_thread, machine};
pub use tables::{Started, last_values, start};

//! The words of a table that threads share, whatever the table is: single atomic steps on them, one event for each
//! step, and one legal history of all events, whose state the words show at every moment.
//!
//! A table says what its steps mean (`vms_history`) and which words show a state. A pass acts through a seat of
//! `atomic_table`, whose view is the history that the pass has seen.
#![tactic(auto)]

mod closing;
mod laws;
mod ledgers;
mod main_pass;
mod views;
mod words;
mod workers;

pub use closing::{Closing, History};
pub use laws::calls_add_up;
pub use ledgers::Ledger;
pub use main_pass::Main;
pub use words::Words;
pub use workers::{Worker, Works};

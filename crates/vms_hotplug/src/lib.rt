//! What stands between two phases, on plain worlds: the start of a run, CPUs that go offline and come online, and the
//! flush of all differentials.
#![tactic(auto)]

mod cpus;
mod flushing;
mod refreshing;
mod settings;
mod starting;
mod summing;

pub use cpus::{bring_up, take_down};
pub use flushing::{flush, flush_pages};
pub use refreshing::refresh;
pub use starting::{start, start_pages};

//! The page counters as words that threads share: each call makes single atomic steps on them, and the words show at
//! every moment the state of one legal history.
#![tactic(auto)]

mod acknowledgements;
mod adds;
mod endings;
mod groups;
mod kept;
mod laws;
mod ledgers;
mod lists;
mod loads;
mod opening;
mod packed;
mod passes;
mod peaks;
mod puts;
mod settings;
mod spots;
mod tables;

pub use laws::cpus_share_no_line;
pub use ledgers::SharedPages;
pub use lists::PackedDiffs;
pub use passes::{Caller, ControlPass, CpuPass, MainPass};
pub use puts::PutDone;
pub use tables::{PageTable, PhaseHistory};

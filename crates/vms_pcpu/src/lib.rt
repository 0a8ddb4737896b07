//! The percpu counters as words that threads share: what each call makes is its steps of the model, whatever other
//! threads do meanwhile.
#![tactic(auto)]

mod adding;
mod calls;
mod folding;
mod laws;
mod ledgers;
mod limiting;
mod locking;
mod passes;
mod places;
mod reading;
mod stepping;
mod tables;

pub use laws::{AnyPcpuPass, cpus_share_no_line, totals_are_kept};
pub use ledgers::SharedPcpu;
pub use locking::Held;
pub use passes::{PcpuControl, PcpuPass};
pub use tables::{PcpuHistory, PcpuMain, PcpuTable};

//! Counters of pages, of events and of things that CPUs count apart, which a program opens, changes and closes through
//! handles, each of which owns a CPU. No call asks its caller for facts about histories: the types keep what the calls
//! below need.
#![tactic(auto)]

mod burying;
mod closing;
mod control_handles;
mod counters;
mod errors;
mod event_calls;
mod handles;
mod looks;
mod passes;
mod pcpu_calls;
mod rating;
mod shared;

pub use closing::Closed;
pub use control_handles::ControlHandle;
pub use counters::Counters;
pub use errors::{BeginError, BuryError, CallError};
pub use handles::Handle;

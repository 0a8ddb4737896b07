//! The calls on the event counters as one thread makes them on plain data: a count, the sum of an event over the CPUs
//! that are online, and the fold of a dead CPU.
#![tactic(auto)]

mod calls;
mod counting;
mod folding;
mod laws;
mod summing;
mod tables;
mod words;

pub use calls::call;
pub use counting::count;
pub use folding::fold_events;
pub use laws::histories_leave_room;
pub use summing::all_events;
pub use tables::PlainEvents;

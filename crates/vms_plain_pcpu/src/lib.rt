//! The calls on the percpu counters as one thread makes them on plain data: it finds every lock free.
#![tactic(auto)]

mod adding;
mod calls;
mod comparing;
mod folding;
mod laws;
mod limiting;
mod places;
mod reading;
mod summing;
mod tables;

pub use adding::{add, sync};
pub use calls::call;
pub use comparing::compare;
pub use folding::fold_dead;
pub use laws::{histories_leave_room, present_cpus_hold_all};
pub use limiting::limited_add;
pub use reading::read;
pub use summing::sum;
pub use tables::PlainPercpu;

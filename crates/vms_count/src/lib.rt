//! What an allocator calls on the page counters that threads share: a change of a counter, and the fold of a CPU.
#![tactic(auto)]

mod changing;
mod counters;
mod folding;

pub use changing::{add, dec, inc};
pub use folding::fold;

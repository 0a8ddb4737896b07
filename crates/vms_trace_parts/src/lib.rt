//! Copies a trace in its one spelling, and keeps its parts: each is a boundary line and the lane lines after it.
#![tactic(auto)]

mod bodies;
mod copies;
mod copying;
mod laws;
mod parts;

pub use copying::copy_trace;
pub use laws::copies_texts;
pub use parts::{Part, TraceParts};

//! The written history of a text in the order of its lines: which page events it has, and how it goes on from segment
//! to segment.
#![tactic(auto)]

mod laws;

pub use laws::{recorded_histories_are_written, recorded_histories_go_on};

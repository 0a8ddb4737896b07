//! What a recording writes of a trace, its lines that count and their written history, is certified.
#![tactic(auto)]

mod laws;

pub use laws::{recorded_texts_are_certified, recorded_texts_have_no_fault};

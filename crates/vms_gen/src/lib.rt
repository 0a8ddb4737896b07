//! The text that is made from three numbers: what its lines are, and a source that makes them while they are read.
#![tactic(auto)]

mod made_lines;
mod made_source;
mod numbers;
mod spelling;
mod unmade;

pub use made_source::MadeSource;
pub use numbers::{Numbers, numbers_named};

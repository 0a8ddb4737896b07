//! Facts of the lowest crates: thresholds and drift marks at the limits of their ranges, encodings, and a made text.
#![tactic(auto)]

mod encodings;
mod marks;
mod texts;
mod thresholds;

pub use encodings::encodings_are_known;
pub use marks::marks_are_known;
pub use texts::made_text_is_known;
pub use thresholds::{rules_may_be_shared, thresholds_are_known};

//! The kernel's formulas for thresholds, drift marks, watermarks and reserves, in pages of 4096 bytes, and what tests
//! of zones take from a header, each proved to equal its definition; and rules that are stored with the fact that they
//! tell thresholds.
#![tactic(auto)]

mod areas;
mod marks;
mod reserves;
mod rules;
mod thresholds;
mod watermarks;
mod zone_tests;

pub use areas::item_index;
pub use marks::{cover_mark, linux_mark};
pub use reserves::reserve;
pub use rules::{Rule, Rules};
pub use thresholds::{MAX_THRESHOLD, normal_threshold, pressure_threshold};
pub use watermarks::zone_marks;
pub use zone_tests::{is_up_to, limit};

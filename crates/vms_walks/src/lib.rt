//! Where a lane's pass stands in the acts of its lines: which step is due, whether a step is the one that is due, and
//! whether all acts are made.
#![tactic(auto)]

mod askings;
mod calling;
mod ended_calls;
mod hidden_pages;
mod laws;
mod open_calls;
mod peaks;
mod rules;
mod settling;
mod walks;

pub use laws::{fitting_lines_are_page_acts, walks_go_along};
pub use open_calls::DueCall;
pub use peaks::ZonePeaks;
pub use walks::Walk;

//! Whether a written history of page events is one of a text: its checker, and the command that asks it, by the
//! kernel's rules of thresholds.
#![tactic(auto)]

mod laws;
mod tool;

pub use laws::made_histories_are_certified;
pub use tool::tool_certify;
pub use vms_history_checks::{BoundaryAt, CheckError, Counted, HistoryCheck};
pub use vms_line_walks::LineWalk;
pub use vms_phase_checks::EventCause;

/// The checker of a written history.
pub type Checker = HistoryCheck<LineWalk>;

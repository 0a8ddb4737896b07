//! The command `certify`: it reads a trace and a history that is written after it, and says whether the history is one
//! of the trace, or the first line at fault. What judges the lines of the history is a trait.
#![tactic(auto)]

mod errors;
mod history_judges;
mod history_lines;
mod jobs;
mod laws;
mod printing;
mod tool;
mod trace_parts;
mod verdicts;
mod written_parts;

pub use errors::JudgeError;
pub use history_judges::{Counted, HistoryJudge};
pub use laws::faults_are_final;
pub use tool::tool_certify;

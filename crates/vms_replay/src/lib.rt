//! The commands that replay a trace: an engine makes its phases, and refusals, answers and reports are printed in the
//! order of its lines. `replay` makes each phase in file order.
#![tactic(auto)]

mod asking;
mod bodies;
mod boundaries;
mod engines;
mod file_order;
mod laws;
mod printers;
mod rules;
mod tool;
mod waits;

pub use bodies::Replay;
pub use engines::{Engine, KernelRules};
pub use file_order::FileOrder;
pub use laws::{lines_print_in_order, phases_lead_through_texts};
pub use printers::WaitPrinter;
pub use tool::{replay_trace, tool_replay};
pub use waits::Wait;

//! The command `record`: it writes a trace, and after it the page events that its lines make in their order.
#![tactic(auto)]

mod histories;
mod laws;
mod tool;

pub use laws::records_are_certified;
pub use tool::tool_record;

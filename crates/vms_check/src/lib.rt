//! The command `check`: it writes a trace in its one spelling, and a comment in the place of each line that doesn't
//! count.
#![tactic(auto)]

mod accepted_lines;
mod bodies;
mod laws;
mod tool;

pub use accepted_lines::write_accepted;
pub use laws::{checks_again, writes_its_text};
pub use tool::tool_check;

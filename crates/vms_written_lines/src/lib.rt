//! The lines of a written history: what each says, and the one spelling of an event.
#![tactic(auto)]

mod arguments;
mod laws;
mod lines;
mod long_steps;
mod narrowing;
mod reading;
mod step_names;
mod wide_steps;
mod words;
mod writing;

pub use laws::lines_read_back;
pub use lines::WrittenLine;
pub use narrowing::widen;
pub use reading::read_line;
pub use wide_steps::WideStep;
pub use writing::{push_event_line, push_history_line, push_phase_line};

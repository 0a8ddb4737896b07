//! What every command on a trace does: it reads the header, judges the lines of the body, and keeps counts and limits.
//! A command adds what it keeps of the lines and what it prints.
#![tactic(auto)]

mod bodies;
mod body_jobs;
mod following;
mod laws;
mod printing;
mod statuses;
mod tallies;
mod trace_jobs;

pub use bodies::Body;
pub use following::follow;
pub use laws::writes_texts;
pub use printing::{write_done_line, write_header_line, write_prefix, write_refused_line};
pub use statuses::status_at_end;

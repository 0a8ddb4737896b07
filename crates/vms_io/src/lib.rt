//! Where a program's text comes from and goes to: sources and sinks that may fail, each with a count of its faults.
#![tactic(auto)]

mod buffers;
mod failures;
mod loops;
mod mem_sink;
mod mem_source;
mod sinks;
mod sources;
mod std_sink;
mod std_source;
mod tallies;

pub use buffers::{ReadBuffer, last_line_end};
pub use failures::{Failed, ReadError};
pub use loops::write_all;
pub use mem_sink::MemSink;
pub use mem_source::MemSource;
pub use sinks::Sink;
pub use sources::Source;
pub use std_sink::StdSink;
pub use std_source::StdSource;

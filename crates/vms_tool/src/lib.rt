//! The program and its commands, over any source and sink.
#![tactic(auto)]

mod commands;
mod exits;
mod histories;
mod laws;
mod naming;
mod program;

pub use commands::tool;
pub use histories::Histories;
pub use laws::texts_have_one_output;
pub use naming::Command;
pub use program::run_program;
pub use vms_certify::tool_certify;
pub use vms_check::tool_check;
pub use vms_gen::Numbers;
pub use vms_groups::{GroupRun, GroupRuns, tool_groups};
pub use vms_record::tool_record;
pub use vms_replay::tool_replay;
pub use vms_run::{Gate, OpenGate, tool_gen, tool_run};
pub use vms_stream::Status;

//! Writes the recorded history of a text to a sink in pieces, phase by phase and through the boundary lines.
#![tactic(auto)]

mod phase_pieces;
mod waiting_bytes;
mod writers;

pub use writers::HistoryWriter;

//! What a lane makes of its lines on the three tables while the other lanes make theirs: in each table the steps of its
//! lines, in their order, and nothing else. Before each line it calls a gate, so that a test can hold lanes up.
#![tactic(auto)]

mod amounts;
mod control_acts;
mod control_lines;
mod counted_lines;
mod cpu_lines;
mod hosts;
mod lane_lines;
mod lane_runs;
mod line_runs;
mod page_acts;
mod passes;

pub use counted_lines::CountedLines;
pub use hosts::Host;
pub use lane_lines::LaneLines;
pub use lane_runs::run_lane;
pub use line_runs::run_line;
pub use passes::LanePasses;

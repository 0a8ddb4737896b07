//! The totals of worlds are plain sums: what the lines of the phases before them say, whatever others did between the
//! steps of each.
#![tactic(auto)]

mod phases;
mod runs;
mod worlds;

pub use phases::phases_add_their_lines;
pub use runs::{
    phases_keep_known_lines, runs_come_to_plain_totals, runs_report_plain_totals,
    ways_add_their_phases,
};
pub use worlds::reported_sums_are_totals;

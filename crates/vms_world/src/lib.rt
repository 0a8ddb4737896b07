//! Worlds: all that stands between two phases of a run, which of them belong to a header, and what a start and the
//! boundaries make of them.
#![tactic(auto)]

mod acts;
mod laws;
mod worlds;

pub use acts::{event_call, page_call, pcpu_call};
pub use laws::{
    boundaries_keep_totals, boundaries_keep_worlds, phases_keep_worlds, runs_keep_worlds,
    starts_make_worlds,
};
pub use worlds::{Volumes, World};

//! Ratings of zones on plain page counters by the control pass, with the lines of their events.
#![tactic(auto)]

mod marks;
mod ratings;
mod visits;

pub use ratings::{write_node_rating, write_refresh};

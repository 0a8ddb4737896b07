//! The calls that set thresholds and drift marks, on plain page counters: those of the control pass where no other
//! caller acts meanwhile.
#![tactic(auto)]

mod burials;
mod nodes;
mod online;
mod page_calls;
mod peaks;
mod rating;
mod refreshing;
mod turns;
mod visiting;

pub use burials::bury;
pub use nodes::{set_normal, set_pressure};
pub use page_calls::call;
pub use peaks::Peaks;
pub use refreshing::refresh;
pub use turns::turn;

//! What each CPU spends in the phases of a run is exactly what its lines come to by their answers, and a world is left
//! by any histories whose spending its volumes cover.
#![tactic(auto)]

mod phases;
mod worlds;

pub use phases::{phases_spend_as_answered, ways_spend_as_answered};
pub use worlds::histories_keep_worlds;

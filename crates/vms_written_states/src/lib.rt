//! The page counters between the phases of a written history belong to its header, whoever wrote it: the next phase may
//! begin with them, and each boundary line may be crossed.
#![tactic(auto)]

mod laws;

pub use laws::written_phases_keep_starts;

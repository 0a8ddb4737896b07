//! How near to the truth the answers of calls on percpu counters are, where calls alone add to the counters.
#![tactic(auto)]

mod adds;
mod answers;
mod counts;

pub use adds::calls_add_carrying_nothing;
pub use answers::{compare_tells_true_sign, limited_add_stays_within_limit};
pub use counts::{count_bound_is_reached, counts_stay_near};

//! The calls on the page counters: which steps each makes, what these tell of its answer and of where they end, what
//! they leave as it was, and that a pass may make them whatever other callers do meanwhile.
#![tactic(auto)]

mod allowed_steps;
mod answers;
mod callers;
mod changes;
mod choices;
mod node_thresholds;
mod page_calls;
mod ratings;
mod readings;
mod rules;
mod turns;

pub use allowed_steps::{
    changes_may_be_made, folds_may_be_made, looks_may_be_made, thresholds_may_be_set,
};
pub use answers::{Balance, OrderVerdict, Verdict};
pub use callers::{
    control_passes_know_by_own_steps, folds_leave_their_caller, looks_leave_their_caller,
    made_calls_leave_their_caller, ratings_leave_their_caller,
};
pub use changes::{changes_follow, changes_miss_once, changes_spend_their_size};
pub use choices::{Chosen, Rating, choose, spares};
pub use node_thresholds::node_threshold;
pub use page_calls::{PageAnswer, PageCall, page_calls_keep_their_laws};
pub use ratings::ratings_cover;
pub use readings::{
    answers_are_told, changes_and_folds_are_told, ratings_are_told, ratings_find_a_cpu,
};
pub use rules::ThresholdRules;
pub use turns::{areas_ascend, balance_tests_name_what_passed, turns_leave_rules};

//! What a report of a tree of groups prints of its words: the value of each group, what is pending in its subtree, and
//! both in sum.
#![tactic(auto)]

mod pendings;
mod reports;

pub use reports::write_group_report;

//! The phase of some lines in file order is one: from the same world these lines make the same events in each table,
//! where the rules of thresholds are functions.
#![tactic(auto)]

mod phases;

pub use phases::file_order_is_one;

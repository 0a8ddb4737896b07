//! The calls on plain page counters that look at values, test them, or fold a CPU. Each makes the steps of its relation
//! in a row.
#![tactic(auto)]

mod balances;
mod folding;
mod orders;
mod tables;
mod values;
mod watermarks;

pub use balances::balance_test;
pub use folding::fold;
pub use orders::order_test;
pub use tables::PlainPages;
pub use values::{place_value, snapshot, system_value};
pub use watermarks::watermark_test;

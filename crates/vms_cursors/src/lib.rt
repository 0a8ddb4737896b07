//! Cursors that go along the plans of calls: each has a fixed size, accepts the step that is due or refuses it, and
//! names the step that is due.
#![tactic(auto)]

mod amounts;
mod asked;
mod balance_positions;
mod blocks;
mod burial_positions;
mod change_positions;
mod changes;
mod cursors;
mod fold_positions;
mod folds;
mod laws;
mod load_positions;
mod looked;
mod online_cpus;
mod order_positions;
mod rated;
mod rating_calls;
mod rating_positions;
mod readings;
mod snapshot_positions;
mod taken;
mod test_positions;
mod turn_positions;
mod turns;

pub use asked::Asked;
pub use balance_positions::BalancePosition;
pub use blocks::Blocks;
pub use burial_positions::BurialPosition;
pub use change_positions::ChangePosition;
pub use changes::Change;
pub use cursors::Cursor;
pub use fold_positions::{FoldPosition, groups_through, is_acknowledged, some_entry, some_item};
pub use folds::Fold;
pub use laws::cursors_can_be_completed;
pub use load_positions::LoadPosition;
pub use looked::{Looked, OnlineCpu};
pub use online_cpus::OnlineCpus;
pub use order_positions::OrderPosition;
pub use rated::Rated;
pub use rating_calls::RatingCall;
pub use rating_positions::RatingPosition;
pub use snapshot_positions::SnapshotPosition;
pub use taken::Taken;
pub use test_positions::TestPosition;
pub use turn_positions::TurnPosition;
pub use turns::Turn;

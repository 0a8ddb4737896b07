//! What a tree of groups keeps of a history, so that the conditions of its steps are decided in constant time, and
//! lists of its steps are judged in one go.
#![tactic(auto)]

mod bases;
mod conditions;
mod facts;
mod judging;
mod laws;
mod opening;
mod registers;
mod rises;
mod rooms;
mod steps;
mod tables;

pub use facts::BoundedFacts;
pub use judging::judge;
pub use laws::room_is_all_that_is_asked;
pub use registers::GroupRegisters;
pub use rooms::most_rising;

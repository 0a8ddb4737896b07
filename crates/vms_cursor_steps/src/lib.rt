//! Steps of cursors in place: no other cursor is made.
#![tactic(auto)]

mod cursor_steps;
mod fold_steps;
mod look_steps;
mod rating_steps;
mod turn_steps;

pub use cursor_steps::go_on;

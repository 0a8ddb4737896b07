//! Rows of words that stand apart: no line of 64 bytes has words of two rows, wherever the words begin.
#![tactic(auto)]

mod filling;
mod opening;
mod rows;

pub use filling::{Plain, Reads, Signed, fill_row, fill_rows};
pub use opening::{push_row, push_signed_row};
pub use rows::{row_width, rows_share_no_line};

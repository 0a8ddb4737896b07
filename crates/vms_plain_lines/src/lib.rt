//! The line of a lane, made on plain tables, goes on in an open phase of file order.
#![tactic(auto)]

mod control;
mod laws;
mod parts;
mod rooms;
mod tables;

pub use rooms::open_phases_leave_room;
pub use tables::PlainTables;

//! Tables of cells by row and column, tables of amounts of which a row tells whether all are 0, and values with the
//! number of their writer.
#![tactic(auto)]

mod grids;
mod stamps;
mod tallies;

pub use grids::Grid;
pub use stamps::Stamped;
pub use tallies::Tally;

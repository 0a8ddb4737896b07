use crate::Grid;
use std::alloc::Global;
use std::marker::Model;
use vms_base::{Memory, Row};

/// A table of amounts, of which each row tells whether all are 0.
#[derive(Debug, Drop)]
pub struct Tally {
    amounts: Grid<i64>,
    /// How many amounts of a row aren't 0.
    counts: Row<usize>,
}

impl Model for Tally {
    ghost use Rattle.std.specs.Prelude.{ℤ};
    ghost use Rattle.vms_cells.specs.Cells.{Cells};
    ghost use Rattle.vms_cells.specs.Tallies.{AreCounted};

    ghost Value = { Cells ℤ };

    ghost view = { λ tally. tally.amounts };

    ghost invariant = { λ tally. AreCounted tally.amounts tally.counts };
}

impl Tally {
    ghost use Rattle.std.specs.Prelude.{◌≡◌, ◌↔◌, ◌*◌, ◌<◌, ◌^◌, pos, IfOk, IsTrue};
    ghost use Rattle.vms_cells.specs.Cells.{at, filled, with_cell};
    ghost use Rattle.vms_cells.specs.Tallies.{IsEmptyRow};

    /// A table of so many rows and columns, in which all amounts are 0.
    pub fn zeros(alloc: Global, rows: usize, width: usize) -> Result<Tally, Memory>
        requires { rows * width < 2 ^ 63 }
        ensures { IfOk result (λ tally. tally ≡ filled rows width (pos 0)) }
    {
        let amounts = Grid::filled(alloc, rows, width, 0)?;
        let counts = Row::filled(alloc, rows, 0)?;
        Ok(Tally { amounts, counts })
    }

    #[inline]
    pub fn get(&self, row: usize, column: usize) -> i64
        requires row { row < self.now.rows }
        requires column { column < self.now.width }
        ensures { result ≡ at self.now row column (pos 0) }
    {
        self.amounts.get(row, column)
    }

    #[inline]
    pub fn set(&mut self, row: usize, column: usize, amount: i64)
        requires row { row < self.old.rows }
        requires column { column < self.old.width }
        ensures { self.new ≡ with_cell self.old row column amount }
    {
        let before = counted(self.amounts.get(row, column));
        let others = self.counts.get(row) - before;
        self.counts.set(row, others + counted(amount));
        self.amounts.set(row, column, amount);
    }

    /// Whether all amounts of a row are 0.
    #[inline]
    pub fn is_empty(&self, row: usize) -> bool
        requires { row < self.now.rows }
        ensures { IsTrue result ↔ IsEmptyRow self.now row }
    {
        self.counts.get(row) == 0
    }
}

ghost use Rattle.std.specs.Prelude.{◌≡◌, ◌≤◌};
ghost use Rattle.vms_cells.specs.Tallies.{counted as counted_of};

/// What an amount counts among those that aren't 0.
#[inline]
fn counted(amount: i64) -> usize
    ensures value { result ≡ counted_of amount }
    ensures most { result ≤ 1 }
{
    if amount == 0 { 0 } else { 1 }
}

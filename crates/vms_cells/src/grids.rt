use std::alloc::Global;
use std::marker::Model;
use vms_base::{Memory, Row};

/// A table of cells by row and column.
#[derive(Debug, Drop)]
pub struct Grid<T> {
    rows: usize,
    width: usize,
    /// The cells of row 0 first.
    items: Row<T>,
}

impl<T> Model for Grid<T> {
    ghost use Rattle.vms_cells.specs.Cells.{Cells, AreWhole};

    ghost Value = { Cells T };

    ghost view = { λ grid. record { rows = grid.rows; width = grid.width; items = grid.items } };

    ghost invariant = { λ grid. AreWhole grid.rows grid.width grid.items };
}

impl<T: Copy> Grid<T> {
    ghost use Rattle.std.specs.Prelude.{◌≡◌, ◌*◌, ◌<◌, ◌^◌, IfOk};
    ghost use Rattle.vms_cells.specs.Cells.{at, filled, with_cell};

    /// A table of so many rows and columns, in which each cell has the same value.
    pub fn filled(alloc: Global, rows: usize, width: usize, value: T) -> Result<Grid<T>, Memory>
        requires { rows * width < 2 ^ 63 }
        ensures { IfOk result (λ grid. grid ≡ filled rows width value) }
    {
        let items = Row::filled(alloc, rows * width, value)?;
        Ok(Grid { rows, width, items })
    }

    #[inline]
    pub fn get(&self, row: usize, column: usize) -> T
        requires row { row < self.now.rows }
        requires column { column < self.now.width }
        ensures { (default : T) → at self.now row column default ≡ result }
    {
        self.items.get(row * self.width + column)
    }

    #[inline]
    pub fn set(&mut self, row: usize, column: usize, value: T)
        requires row { row < self.old.rows }
        requires column { column < self.old.width }
        ensures { self.new ≡ with_cell self.old row column value }
    {
        self.items.set(row * self.width + column, value);
    }
}

//! Tables of bytes.

ghost use Rattle.std.specs.Prelude.{◌⊎◌, ◌≡◌, ◌≢◌, ℕ, ◌*◌, ◌<◌, ◌≤◌, IfOk};
ghost use Rattle.gf_linear.specs.Table.{Table, IsTable, IsKept, SameShape};
ghost use Rattle.gf_linear.specs.Table.{at, table_of, zeros_of, with_entry};

use sat_base::NoMemory;
use std::alloc::Global;
use std::marker::Model;

/// A table of bytes, as the coefficients of a linear system, whose size may be changed within the
/// room that it was made with. It has at most 128 rows and 129 columns.
#[derive(Drop)]
pub struct Matrix {
    rows: usize,
    cols: usize,
    // The entries row by row, and behind them the rest of the room.
    cells: Vec<u8>,
}

impl Model for Matrix {
    ghost Value = { Table };

    ghost view = { λ m. table_of m.rows m.cols m.cells.items };

    ghost invariant = { λ m. IsKept m.rows m.cols m.cells.items };
}

impl Matrix {
    /// A table of zeros, with room for as many entries as it has. It fails only where memory runs out.
    pub fn new(alloc: Global, rows: usize, cols: usize) -> Result<Matrix, NoMemory>
        requires size { (rows ≤ 128) × (cols ≤ 129) }
        ensures { IfOk result (λ m. m ≡ zeros_of rows cols (rows * cols)) }
    {
        let cells = vec![in alloc; 0; rows * cols]?;
        Ok(Matrix { rows, cols, cells })
    }

    /// Makes it a table of zeros of another size, for which it has the room. It takes no memory.
    pub fn reset(&mut self, rows: usize, cols: usize)
        requires size { (rows ≤ 128) × (cols ≤ 129) }
        requires room { rows * cols ≤ self.old.room }
        ensures table { self.new ≡ zeros_of rows cols self.old.room }
        ensures zero { (i j : ℕ) → at self.new i j ≡ 0 }
    {
        self.rows = rows;
        self.cols = cols;
        for cell in self.cells.iter_mut() {
            *cell = 0;
        }
    }

    /// The number of rows.
    pub fn rows(&self) -> usize
        ensures rows { result ≡ self.now.rows }
        ensures table { IsTable self.now }
    {
        self.rows
    }

    /// The number of columns.
    pub fn cols(&self) -> usize
        ensures cols { result ≡ self.now.cols }
        ensures table { IsTable self.now }
    {
        self.cols
    }

    /// Makes `value` the entry in row `row` and column `col`, both counted from 0.
    pub fn set(&mut self, row: usize, col: usize, value: u8)
        requires place { (row < self.old.rows) × (col < self.old.cols) }
        ensures table { self.new ≡ with_entry self.old row col value }

        // What follows from that, in terms of single entries.
        ensures shape { SameShape self.old self.new }
        ensures here { at self.new row col ≡ value }
        ensures others { (i j : ℕ) → j < self.old.cols → (i ≢ row) ⊎ (j ≢ col)
            → at self.new i j ≡ at self.old i j }
    {
        self.cells[row * self.cols + col] = value;
    }

    /// The entry in row `row` and column `col`, both counted from 0.
    pub fn get(&self, row: usize, col: usize) -> u8
        requires place { (row < self.now.rows) × (col < self.now.cols) }
        ensures { result ≡ at self.now row col }
    {
        self.cells[row * self.cols + col]
    }
}

//! Linear systems, by Gauss-Jordan elimination.

ghost use Rattle.std.specs.Prelude.{◌≡◌, ◌≢◌, ℕ, suc, ◌+◌, ◌<◌, ◌≤◌, length, slice_index};
ghost use Rattle.std.specs.Prelude.{IfSome, IfNone};
ghost use Rattle.gf_linear.specs.Table.{IsTable, SameShape, at};
ghost use Rattle.gf_linear.specs.System.{IsSolution, IsFree};
ghost use Rattle.gf_linear.specs.Elimination.{SameKernel, RowAdded, IsFirstPivot, IsPivotRaised};
ghost use Rattle.gf_linear.specs.Elimination.{IsEliminated, IsReduced, IsReadOff};

use crate::matrix::Matrix;
use gf256::{add, inv, mul};

/// Whether a linear system has a solution.
#[derive(Clone, Copy)]
pub enum Solved {
    /// A solution was found. It is the only one unless an unknown is free.
    One,
    /// There is none.
    NoSolution,
}

// Adds `factor` times the row `from` to the row `to`.
fn add_row(m: &mut Matrix, to: usize, from: usize, factor: u8)
    requires rows { (to < m.old.rows) × (from < m.old.rows) }
    requires differ { to ≢ from }
    ensures added { RowAdded m.old.cols (at m.old) (at m.new) to from factor }
    ensures shape { SameShape m.old m.new }
{
    for col in 0..m.cols() {
        let sum = add(m.get(to, col), mul(factor, m.get(from, col)));
        m.set(to, col, sum);
    }
}

// The first row from `rank` on that is not 0 in the column `col`.
fn find_pivot(m: &Matrix, rank: usize, col: usize) -> Option<usize>
    requires place { (rank ≤ m.now.rows) × (col < m.now.cols) }
    ensures found { IfSome result (IsFirstPivot m.now.rows (at m.now) rank col) }
    ensures none { IfNone result ((i : ℕ) → rank ≤ i → i < m.now.rows → at m.now i col ≡ 0) }
    ensures table { IsTable m.now }
{
    for row in rank..m.rows() {
        if m.get(row, col) != 0 {
            return Some(row);
        }
    }
    None
}

// Brings the pivot in row `pivot` up to row `rank`, which is 0 in that column unless it is the same
// row. Adding the one row to the other serves as well as exchanging them.
fn raise_pivot(m: &mut Matrix, rank: usize, pivot: usize)
    requires rows { (rank ≤ pivot) × (pivot < m.old.rows) }
    ensures raised { IsPivotRaised m.old.cols (at m.old) (at m.new) rank pivot }
    ensures kernel { SameKernel m.old.rows m.old.cols (at m.old) (at m.new) }
    ensures shape { SameShape m.old m.new }
{
    if pivot != rank {
        add_row(m, rank, pivot, 1);
    }
}

// Makes the column `col` 0 in each row but `row`, whose entry there is the pivot.
fn eliminate(m: &mut Matrix, row: usize, col: usize)
    requires place { (row < m.old.rows) × (col < m.old.cols) }
    requires pivot { at m.old row col ≢ 0 }
    ensures eliminated { IsEliminated m.old.rows m.old.cols (at m.old) (at m.new) row col }
    ensures kernel { SameKernel m.old.rows m.old.cols (at m.old) (at m.new) }
    ensures shape { SameShape m.old m.new }
    ensures table { IsTable m.old }
{
    let scale = inv(m.get(row, col));
    for other in 0..m.rows() {
        if other == row {
            continue;
        }
        let factor = mul(m.get(other, col), scale);
        add_row(m, other, row, factor);
    }
}

// Brings the columns of the unknowns to reduced form and returns their rank, the number of pivots.
// Until the unknowns are known their places hold marks: 0 where the column has no pivot, and else
// the row of its pivot plus 1. There are at most 128 rows, so that a mark fits a byte.
fn reduce(m: &mut Matrix, marks: &mut [u8]) -> usize
    requires width { length marks.old + 1 ≡ m.old.cols }
    ensures reduced { let mark = slice_index marks.new in
        IsReduced m.old.rows result (length marks.new) (at m.new) mark }
    ensures kernel { SameKernel m.old.rows m.old.cols (at m.old) (at m.new) }
    ensures shape { SameShape m.old m.new }
{
    let mut rank = 0;
    for col in 0..marks.len() {
        let Some(pivot) = find_pivot(m, rank, col) else {
            marks[col] = 0;
            continue;
        };
        raise_pivot(m, rank, pivot);
        eliminate(m, rank, col);
        rank += 1;
        marks[col] = rank as u8;
    }
    rank
}

// Puts each unknown in the place of its column's mark: 0 where there is no pivot, and else the
// right side of the pivot's row over the pivot.
fn read_off(m: &Matrix, marks: &mut [u8])
    requires width { length marks.old + 1 ≡ m.now.cols }
    requires pivots { (j r : ℕ) → j < length marks.old → slice_index marks.old j ≡ suc r
        → (r < m.now.rows) × (at m.now r j ≢ 0) }
    ensures { let mark = slice_index marks.old in
        IsReadOff (length marks.old) (at m.now) mark (slice_index marks.new) }
{
    let right_side = m.cols() - 1;
    for col in 0..marks.len() {
        let mark = marks[col];
        if mark == 0 {
            continue;
        }
        let row = (mark - 1) as usize;
        let scale = inv(m.get(row, col));
        marks[col] = mul(m.get(row, right_side), scale);
    }
}

/// Solves a linear system by Gauss-Jordan elimination (row reduction to echelon form, as in any
/// textbook of linear algebra). It takes no memory.
///
/// Each row of `m` is an equation, whose right side is in the last column, and each other column
/// has the coefficients of one unknown. `out` has a place for each unknown, and after
/// `Solved::One` it holds the solution, in which a free unknown (its column has no pivot) is 0.
/// The entries of `m` are used up: what they are afterwards is left open.
pub fn solve(m: &mut Matrix, out: &mut [u8]) -> Solved
    requires width { length out.old + 1 ≡ m.old.cols }

    // The answer is right both ways.
    ensures one { result ≡ Solved.One
        → IsSolution m.old.rows (length out.new) (at m.old) (slice_index out.new) }
    ensures none { result ≡ Solved.NoSolution
        → (x : ℕ → ℕ) → IsSolution m.old.rows (length out.new) (at m.old) x → ⊥ }

    ensures free { result ≡ Solved.One
        → (j : ℕ) → j < length out.new → IsFree m.old.rows (length out.new) (at m.old) j
        → slice_index out.new j ≡ 0 }
    ensures bytes { (j : ℕ) → slice_index out.new j < 256 }
    ensures size { SameShape m.old m.new }
{
    let right_side = m.cols() - 1;
    let rank = reduce(m, out);
    match find_pivot(m, rank, right_side) {
        // A row whose coefficients are all 0, but not its right side.
        Some(_) => Solved::NoSolution,
        None => {
            read_off(m, out);
            Solved::One
        }
    }
}

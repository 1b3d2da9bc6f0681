ghost use Rattle.std.specs.Prelude.{◌≡◌, ℕ, ◌≤◌, ◌+◌, ◌-◌, [], length, slice_get, None, IsOk, IsSome, IfSome, IfOk, IfErr, OnOk, OnErr, option_copied, vec_capacity, vec_len};
ghost use Rattle.rows.specs.Rows.{RowList, row_at, first_above, added, replaced, without, IsRising};
ghost use Rattle.rows.specs.Place.{IsAt, IsGapFor};

use sat_base::{NoMemory, Ranked};
use std::alloc::Global;
use std::marker::Model;

/// Rows in the order of their ranks, at most one of a rank.
///
/// Contracts see the list of the rows, and `spare`, the number of rows for which there is room. A look-up
/// costs the logarithm of the rows; adding or removing a row moves those behind it.
#[derive(Drop)]
pub struct Rows<R: Ranked> {
    rows: Vec<R>,
}

impl<R: Ranked> Model for Rows<R> {
    ghost Value = { RowList R };

    ghost view = { λ t. record { rows = t.rows.items; spare = vec_capacity t.rows - vec_len t.rows } };

    ghost invariant = { λ t. IsRising R.rank t.rows.items };
}

impl<R: Ranked> Rows<R> {
    /// No rows.
    pub fn new(alloc: Global) -> Self
        ensures { result.rows ≡ [] }
    {
        Rows {
            rows: Vec::new(alloc),
        }
    }

    /// How many rows there are.
    pub fn len(&self) -> usize
        ensures { result ≡ length self.now.rows }
    {
        self.rows.len()
    }

    /// The rows, in the order of their ranks.
    pub fn as_slice(&self) -> &[R]
        ensures rows { result.now ≡ self.now.rows }
        ensures rising { IsRising R.rank self.now.rows }
    {
        self.rows.as_slice()
    }

    // Where the row of a rank stands, or where it would.
    fn search(&self, k: u128) -> Result<usize, usize>
        ensures found { IfOk result (IsAt R.rank self.now.rows k) }
        ensures absent { IfErr result (IsGapFor R.rank self.now.rows k) }
    {
        self.rows.binary_search_by_key(&k, |row| row.rank())
    }

    /// The row of a rank.
    pub fn get(&self, k: u128) -> Option<&R>
        ensures row { option_copied result ≡ row_at R.rank self.now.rows k }
        ensures ranked { IfSome result (λ row. R.rank row.now ≡ k) }
    {
        match self.search(k) {
            Ok(i) => self.rows.get(i),
            Err(_) => None,
        }
    }

    /// The first row above a rank.
    pub fn after(&self, k: u128) -> Option<&R>
        ensures { option_copied result ≡ first_above R.rank self.now.rows k }
    {
        match self.search(k) {
            Ok(i) => self.rows.get(i + 1),
            Err(i) => self.rows.get(i),
        }
    }

    /// The first row.
    pub fn first(&self) -> Option<&R>
        ensures { option_copied result ≡ slice_get self.now.rows 0 }
    {
        self.rows.get(0)
    }

    /// Makes room for `n` more rows. Running out of memory leaves the rows as they were.
    pub fn reserve(&mut self, n: usize) -> Result<(), NoMemory>
        ensures rows { self.new.rows ≡ self.old.rows }
        ensures ok { OnOk result (n ≤ self.new.spare) }
        ensures spare { self.old.spare ≤ self.new.spare }

        // Where there is room already, it takes no memory.
        ensures succeeds { n ≤ self.old.spare → IsOk result }
        ensures kept { n ≤ self.old.spare → self.new.spare ≡ self.old.spare }
        ensures err { OnErr result (self.new ≡ self.old) }
    {
        if self.rows.capacity() - self.rows.len() < n {
            self.rows.reserve(n)?;
        }
        Ok(())
    }

    /// Adds a row for which there is room, and whose rank has none. It takes no memory.
    pub fn add(&mut self, row: R)
        requires room { 1 ≤ self.old.spare }
        requires absent { row_at R.rank self.old.rows (R.rank row) ≡ None }
        ensures rows { self.new.rows ≡ added R.rank row self.old.rows }
        ensures spare { self.new.spare + 1 ≡ self.old.spare }
    {
        let at = self.search(row.rank()).unwrap_err();
        self.rows.insert(at, row).unwrap();
    }

    /// Puts a row in place of the one of its rank. It takes no memory.
    pub fn set(&mut self, row: R)
        requires { IsSome (row_at R.rank self.old.rows (R.rank row)) }
        ensures rows { self.new.rows ≡ replaced R.rank row self.old.rows }
        ensures spare { self.new.spare ≡ self.old.spare }
    {
        let at = self.search(row.rank()).unwrap();
        self.rows[at] = row;
    }

    /// Removes the row of a rank, if there is one. It takes no memory.
    pub fn remove(&mut self, k: u128)
        ensures rows { self.new.rows ≡ without R.rank self.old.rows k }

        // The room that a row took is room for another.
        ensures room { self.new.spare + length self.new.rows ≡ self.old.spare + length self.old.rows }
        ensures spare { self.old.spare ≤ self.new.spare }
        ensures none { row_at R.rank self.old.rows k ≡ None → self.new.spare ≡ self.old.spare }
    {
        if let Ok(at) = self.search(k) {
            self.rows.remove(at);
        }
    }
}

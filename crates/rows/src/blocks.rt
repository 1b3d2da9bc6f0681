ghost use Rattle.std.specs.Prelude.{◌≡◌, ℕ, ◌<◌, ◌≤◌, ◌+◌, ◌-◌, ◌^◌, [], length, slice_get, drop, None, true, false, IsTrue, IsOk, IfSome, OnOk, OnErr, option_copied, vec_capacity, vec_len, if◌then◌else◌};
ghost use Rattle.rows.specs.Rows.{RowList, row_at, first_above, added, without, IsRising};
ghost use Rattle.rows.specs.Blocks.{all_rows, most, AreBlocks, IsHolder};

use crate::Rows;
use crate::finding::{first_from, holder, nth_from};
use crate::moving::{MOST, add_to_full};
use sat_base::{NoMemory, Ranked};
use std::alloc::Global;
use std::marker::Model;
use std::mem;

/// Rows in the order of their ranks, at most one of a rank, in blocks of at most 512.
///
/// Contracts see the list of the rows, and `spare`, which is 1 where there is room for one more. A look-up costs the
/// logarithm of the rows; adding one moves at most a block's rows, and now and then the blocks behind it.
pub struct BlockRows<R: Ranked + Copy> {
    alloc: Global,
    blocks: Vec<Rows<R>>,
    // The next block, made before it is wanted.
    empty: Rows<R>,
    is_ready: bool,
    count: usize,
}

// By hand, so that it is taken apart here, and not anew wherever one is let go.
impl<R: Ranked + Copy> Drop for BlockRows<R> {
    fn drop(self) {
        let BlockRows {
            alloc: _,
            blocks: _,
            empty: _,
            is_ready: _,
            count: _,
        } = self;
    }
}

impl<R: Ranked + Copy> Model for BlockRows<R> {
    ghost use Rattle.std.specs.Prelude.{◌≡◌, ℕ, ◌<◌, ◌≤◌, ◌+◌, ◌^◌, [], length, IsTrue, vec_capacity, vec_len, if◌then◌else◌};
    ghost use Rattle.rows.specs.Rows.{RowList, IsRising};
    ghost use Rattle.rows.specs.Blocks.{all_rows, most, AreBlocks};

    ghost Value = { RowList R };

    ghost view = { λ t. record { rows = all_rows t.blocks.items; spare = if t.is_ready then 1 else 0 } };

    ghost invariant = { λ t. record {
      rising : IsRising R.rank (all_rows t.blocks.items);
      blocks : AreBlocks t.blocks.items;
      empty : t.empty.rows ≡ [];
      ready : IsTrue t.is_ready → (most ≤ t.empty.spare) × (vec_len t.blocks < vec_capacity t.blocks) × (t.count + 1 < 2 ^ 64);
      counted : t.count ≡ length (all_rows t.blocks.items);
    } };
}

impl<R: Ranked + Copy> BlockRows<R> {
    /// No rows.
    pub fn new(alloc: Global) -> Self
        ensures rows { result.rows ≡ [] }
        ensures spare { result.spare ≡ 0 }
    {
        BlockRows {
            alloc,
            blocks: Vec::new(alloc),
            empty: Rows::new(alloc),
            is_ready: false,
            count: 0,
        }
    }

    /// How many rows there are.
    pub fn len(&self) -> usize
        ensures rows { result ≡ length self.now.rows }
        ensures rising { IsRising R.rank self.now.rows }
    {
        self.count
    }

    /// Makes room for one more row. Running out of memory leaves the rows as they were.
    pub fn reserve(&mut self) -> Result<(), NoMemory>
        ensures rows { self.new.rows ≡ self.old.rows }
        ensures ok { OnOk result (self.new.spare ≡ 1) }
        ensures err { OnErr result (self.new.spare ≡ self.old.spare) }
    {
        if !self.is_ready {
            if self.count == usize::MAX {
                return Err(NoMemory);
            }
            if self.blocks.capacity() == self.blocks.len() {
                self.blocks.reserve(1)?;
            }
            self.empty.reserve(MOST)?;
            self.is_ready = true;
        }
        Ok(())
    }

    /// The row of a rank.
    pub fn get(&self, k: u128) -> Option<&R>
        ensures row { option_copied result ≡ row_at R.rank self.now.rows k }
        ensures rising { IsRising R.rank self.now.rows }
    {
        if self.blocks.is_empty() {
            return None;
        }
        self.blocks[holder(&self.blocks, k)].get(k)
    }

    /// The first row above a rank.
    pub fn after(&self, k: u128) -> Option<&R>
        ensures row { option_copied result ≡ first_above R.rank self.now.rows k }
        ensures rising { IsRising R.rank self.now.rows }
    {
        if self.blocks.is_empty() {
            return None;
        }
        let at = holder(&self.blocks, k);
        match self.blocks[at].after(k) {
            Some(row) => Some(row),
            None => first_from(&self.blocks, at + 1),
        }
    }

    /// The first row.
    pub fn first(&self) -> Option<&R>
        ensures row { option_copied result ≡ slice_get self.now.rows 0 }
        ensures rising { IsRising R.rank self.now.rows }
    {
        first_from(&self.blocks, 0)
    }

    /// The row at a place, counted from 0. It passes over the blocks before it, and not over their rows.
    pub fn nth(&self, k: usize) -> Option<&R>
        ensures row { option_copied result ≡ slice_get self.now.rows k }
        ensures rising { IsRising R.rank self.now.rows }
    {
        nth_from(&self.blocks, k)
    }

    /// Adds a row for which there is room, and whose rank has none. It takes no memory.
    pub fn add(&mut self, row: R)
        requires room { 1 ≤ self.old.spare }
        requires absent { row_at R.rank self.old.rows (R.rank row) ≡ None }
        ensures rows { self.new.rows ≡ added R.rank row self.old.rows }
        ensures rising { IsRising R.rank self.new.rows }
        ensures spare { self.new.spare + 1 ≡ self.old.spare }
    {
        self.is_ready = false;
        self.count += 1;
        if self.blocks.is_empty() {
            let mut block = mem::replace(&mut self.empty, Rows::new(self.alloc));
            block.add(row);
            self.blocks.push(block).unwrap();
            return;
        }
        let at = holder(&self.blocks, row.rank());
        add_at(self.alloc, &mut self.blocks, &mut self.empty, at, row);
    }

    /// Removes the row of a rank, if there is one. It takes no memory, and leaves the room for one more row.
    pub fn remove(&mut self, k: u128)
        ensures rows { self.new.rows ≡ without R.rank self.old.rows k }
        ensures rising { IsRising R.rank self.new.rows }
        ensures spare { self.new.spare ≡ self.old.spare }
    {
        if self.blocks.is_empty() {
            return;
        }
        let at = holder(&self.blocks, k);
        self.count -= remove_at(&mut self.blocks, at, k);
    }
}

// Adds a row to the block that it belongs to, which is split where it is full.
fn add_at<R: Ranked + Copy>(
    alloc: Global,
    blocks: &mut Vec<Rows<R>>,
    empty: &mut Rows<R>,
    at: usize,
    row: R,
)
    requires at { at < length blocks.old.items }
    requires holds { IsHolder R.rank (R.rank row) blocks.old.items at }
    requires blocks { AreBlocks blocks.old.items }
    requires rising { IsRising R.rank (all_rows blocks.old.items) }
    requires absent { row_at R.rank (all_rows blocks.old.items) (R.rank row) ≡ None }
    requires room { vec_len blocks.old < vec_capacity blocks.old }
    requires empty { empty.old.rows ≡ [] }
    requires next { most ≤ empty.old.spare }
    ensures rows { all_rows blocks.new.items ≡ added R.rank row (all_rows blocks.old.items) }
    ensures blocks { AreBlocks blocks.new.items }
    ensures empty { empty.new.rows ≡ [] }
{
    if blocks[at].len() < MOST {
        blocks[at].add(row);
        return;
    }
    let mut upper = mem::replace(empty, Rows::new(alloc));
    add_to_full(&mut blocks[at], &mut upper, row);
    blocks.insert(at + 1, upper).unwrap();
}

// Removes the row of a rank from the block that it would stand in, and the block where it has no other. Tells how many
// rows that were.
fn remove_at<R: Ranked>(blocks: &mut Vec<Rows<R>>, at: usize, k: u128) -> usize
    requires at { at < length blocks.old.items }
    requires holds { IsHolder R.rank k blocks.old.items at }
    requires blocks { AreBlocks blocks.old.items }
    ensures rows { all_rows blocks.new.items ≡ without R.rank (all_rows blocks.old.items) k }
    ensures blocks { AreBlocks blocks.new.items }
    ensures len { vec_len blocks.new ≤ vec_len blocks.old }
    ensures capacity { vec_capacity blocks.new ≡ vec_capacity blocks.old }
    ensures removed { length (all_rows blocks.new.items) + result ≡ length (all_rows blocks.old.items) }
{
    let block = &mut blocks[at];
    let before = block.len();
    block.remove(k);
    let left = block.len();
    if left > 0 {
        return before - left;
    }
    let _empty = blocks.remove(at);
    before
}

// Blocks are found by the ranks at which they begin.
ghost use Rattle.std.specs.Prelude.{◌≡◌, ◌<◌, ◌≤◌, ◌-◌, length, drop, slice_get, false, IsTrue, option_copied};
ghost use Rattle.rows.specs.Rows.{IsRising};
ghost use Rattle.rows.specs.Blocks.{all_rows, AreBlocks, BeginsBy, BeginsAbove, IsHolder};

use crate::Rows;
use sat_base::Ranked;

// The first row of a block and those behind it.
pub(crate) fn first_from<R: Ranked>(blocks: &[Rows<R>], at: usize) -> Option<&R>
    requires { AreBlocks blocks.now }
    ensures { option_copied result ≡ slice_get (all_rows (drop at blocks.now)) 0 }
{
    if at < blocks.len() {
        blocks[at].first()
    } else {
        None
    }
}

// The row at a place among those of all blocks.
pub(crate) fn nth_from<R: Ranked>(blocks: &[Rows<R>], k: usize) -> Option<&R>
    ensures { option_copied result ≡ slice_get (all_rows blocks.now) k }
{
    let mut left = k;
    for block in blocks {
        if left < block.len() {
            return Some(&block.as_slice()[left]);
        }
        left -= block.len();
    }
    None
}

// Whether a block begins at a rank of at most k.
fn begins_by<R: Ranked>(blocks: &[Rows<R>], at: usize, k: u128) -> bool
    requires at { at < length blocks.now }
    requires blocks { AreBlocks blocks.now }
    ensures by { IsTrue result → BeginsBy R.rank k (all_rows (drop at blocks.now)) }
    ensures above { result ≡ false → BeginsAbove R.rank k (all_rows (drop at blocks.now)) }
{
    match first_from(blocks, at) {
        Some(row) => row.rank() <= k,
        None => false,
    }
}

// How many blocks begin at a rank of at most k.
fn count_until<R: Ranked>(blocks: &[Rows<R>], k: u128) -> usize
    requires { AreBlocks blocks.now }
    ensures within { result ≤ length blocks.now }
    ensures by { 1 ≤ result → BeginsBy R.rank k (all_rows (drop (result - 1) blocks.now)) }
    ensures above { BeginsAbove R.rank k (all_rows (drop result blocks.now)) }
{
    let mut low = 0;
    let mut high = blocks.len();
    while low < high {
        let middle = low + (high - low) / 2;
        if begins_by(blocks, middle, k) {
            low = middle + 1;
        } else {
            high = middle;
        }
    }
    low
}

// The block that a row of this rank stands in, or would.
pub(crate) fn holder<R: Ranked>(blocks: &[Rows<R>], k: u128) -> usize
    requires some { 1 ≤ length blocks.now }
    requires blocks { AreBlocks blocks.now }
    requires rising { IsRising R.rank (all_rows blocks.now) }
    ensures within { result < length blocks.now }
    ensures holds { IsHolder R.rank k blocks.now result }
{
    count_until(blocks, k).saturating_sub(1)
}

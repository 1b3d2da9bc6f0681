// Rows are moved from the end of a block.
ghost use Rattle.std.specs.Prelude.{◌≡◌, ◌+◌, ◌≤◌, ◌++◌, [], length, None, IsTrue, false, ◌⊎◌};
ghost use Rattle.rows.specs.Rows.{row_at, added, IsRising};
ghost use Rattle.rows.specs.Blocks.{most, IsBlock, AllBelow, BeginsBy, BeginsAbove};

use crate::Rows;
use sat_base::Ranked;

/// The most rows of a block.
pub(crate) const MOST: usize = 512;

// Moves the last row of a block to the front of the one behind it.
fn move_last<R: Ranked + Copy>(from: &mut Rows<R>, to: &mut Rows<R>)
    requires rows { 1 ≤ length from.old.rows }
    requires room { 1 ≤ to.old.spare }
    requires rising { IsRising R.rank (from.old.rows ++ to.old.rows) }
    ensures rows { from.new.rows ++ to.new.rows ≡ from.old.rows ++ to.old.rows }
    ensures one { length from.new.rows + 1 ≡ length from.old.rows }
    ensures from_room { from.new.spare + length from.new.rows ≡ from.old.spare + length from.old.rows }
    ensures to_room { to.new.spare + length to.new.rows ≡ to.old.spare + length to.old.rows }
{
    let row = from.as_slice()[from.len() - 1];
    from.remove(row.rank());
    to.add(row);
}

// Moves the rows behind the first `keep` of a block into an empty one.
pub(crate) fn move_behind<R: Ranked + Copy>(from: &mut Rows<R>, to: &mut Rows<R>, keep: usize)
    requires keep { keep ≤ length from.old.rows }
    requires empty { to.old.rows ≡ [] }
    requires room { length from.old.rows ≤ keep + to.old.spare }
    requires rising { IsRising R.rank from.old.rows }
    ensures rows { from.new.rows ++ to.new.rows ≡ from.old.rows }
    ensures kept { length from.new.rows ≡ keep }
    ensures from_room { from.new.spare + length from.new.rows ≡ from.old.spare + length from.old.rows }
    ensures to_room { to.new.spare + length to.new.rows ≡ to.old.spare }
{
    while from.len() > keep {
        move_last(from, to);
    }
}

// Whether there are rows, all above a rank.
fn begins_above<R: Ranked>(rows: &Rows<R>, k: u128) -> bool
    ensures above { IsTrue result → (1 ≤ length rows.now.rows) × BeginsAbove R.rank k rows.now.rows }
    ensures by { result ≡ false → (length rows.now.rows ≡ 0) ⊎ BeginsBy R.rank k rows.now.rows }
{
    match rows.first() {
        Some(first) => k < first.rank(),
        None => false,
    }
}

// Adds a row to the block that it belongs to, of one and the one behind it: to the second where that is empty.
fn add_to_either<R: Ranked>(lower: &mut Rows<R>, upper: &mut Rows<R>, row: R)
    requires lower_room { 1 ≤ length upper.old.rows → 1 ≤ lower.old.spare }
    requires upper_room { 1 ≤ upper.old.spare }
    requires rising { IsRising R.rank (lower.old.rows ++ upper.old.rows) }
    requires absent { row_at R.rank (lower.old.rows ++ upper.old.rows) (R.rank row) ≡ None }
    requires behind { length upper.old.rows ≡ 0 → AllBelow R.rank (R.rank row) lower.old.rows }
    ensures rows { lower.new.rows ++ upper.new.rows ≡ added R.rank row (lower.old.rows ++ upper.old.rows) }
    ensures lower_room { lower.new.spare + length lower.new.rows ≡ lower.old.spare + length lower.old.rows }
    ensures upper_room { upper.new.spare + length upper.new.rows ≡ upper.old.spare + length upper.old.rows }
    ensures lower_len { (length lower.old.rows ≤ length lower.new.rows) × (length lower.new.rows ≤ length lower.old.rows + length upper.old.rows)
        × (length lower.new.rows ≤ length lower.old.rows + 1) }
    ensures upper_len { (1 ≤ length upper.new.rows) × (length upper.new.rows ≤ length upper.old.rows + 1) }
{
    if begins_above(upper, row.rank()) {
        lower.add(row);
    } else {
        upper.add(row);
    }
}

// How many rows of a full block stay in it: half, or all where they are below a rank.
fn count_kept<R: Ranked>(block: &Rows<R>, k: u128) -> usize
    requires full { length block.now.rows ≡ most }
    requires rising { IsRising R.rank block.now.rows }
    ensures some { 1 ≤ result }
    ensures few { result ≤ most }
    ensures below { result ≡ most → AllBelow R.rank k block.now.rows }
{
    if block.as_slice()[MOST - 1].rank() < k {
        MOST
    } else {
        MOST / 2
    }
}

// Adds a row to a full block, of which half moves into an empty one first. Nothing moves where the row stands
// behind all, so that rows which come in order fill their blocks.
pub(crate) fn add_to_full<R: Ranked + Copy>(lower: &mut Rows<R>, upper: &mut Rows<R>, row: R)
    requires full { length lower.old.rows ≡ most }
    requires empty { upper.old.rows ≡ [] }
    requires room { most ≤ upper.old.spare }
    requires rising { IsRising R.rank lower.old.rows }
    requires absent { row_at R.rank lower.old.rows (R.rank row) ≡ None }
    ensures rows { lower.new.rows ++ upper.new.rows ≡ added R.rank row lower.old.rows }
    ensures lower { IsBlock lower.new }
    ensures upper { IsBlock upper.new }
{
    let keep = count_kept(lower, row.rank());
    move_behind(lower, upper, keep);
    add_to_either(lower, upper, row);
}

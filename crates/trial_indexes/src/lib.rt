//! Lists of indexes, and whether they are what decoding, repairs and calls need: the tests that a program makes of what it
//! was given.
#![tactic(auto)]

ghost use Rattle.std.specs.Prelude.{◌≡◌, ◌<◌, true, false, map, All, IfOk, IsTrue};
ghost use Rattle.sat_base.specs.declared.records.At.{At};
ghost use Rattle.bw_decode.specs.Altered.{indexes_of as share_indexes};
ghost use Rattle.bw_decode.specs.Near.{Rises};
ghost use Rattle.repair_core.specs.Indexes.{has_index};

use sat_base::{At, NoMemory, Share};
use std::alloc::Global;

/// The indexes of pieces.
pub fn indexes_of(alloc: Global, pieces: &[At]) -> Result<Vec<u8>, NoMemory>
    ensures { IfOk result (λ indexes. indexes.items ≡ map (λ piece. piece.index) pieces.now) }
{
    Ok(pieces.iter().map(|piece| piece.index).collect(alloc)?)
}

/// The indexes of shares.
pub fn indexes_in(alloc: Global, shares: &[Share]) -> Result<Vec<u8>, NoMemory>
    ensures { IfOk result (λ indexes. indexes.items ≡ share_indexes shares.now) }
{
    Ok(shares.iter().map(|share| share.index).collect(alloc)?)
}

/// Whether the indexes of the shares rise and are below `n`.
pub fn are_in_order(alloc: Global, shares: &[Share], n: u8) -> Result<bool, NoMemory>
    ensures rising { IfOk result (λ rise. IsTrue rise → Rises (share_indexes shares.now)) }
    ensures below { IfOk result (λ rise. IsTrue rise → All (λ index. index < n) (share_indexes shares.now)) }
{
    let indexes = indexes_in(alloc, shares)?;
    Ok(are_rising(indexes.as_slice(), n))
}

/// Whether the indexes rise and are below `n`.
pub fn are_rising(indexes: &[u8], n: u8) -> bool
    ensures rising { IsTrue result → Rises indexes.now }
    ensures below { IsTrue result → All (λ index. index < n) indexes.now }
{
    for i in 0..indexes.len() {
        if indexes[i] >= n || (i > 0 && indexes[i - 1] >= indexes[i]) {
            return false;
        }
    }
    true
}

fn stands_in(indexes: &[u8], index: u8) -> bool
    ensures { result ≡ has_index indexes.now index }
{
    indexes.iter().any(|one| *one == index)
}

/// Whether each of the indexes stands in the others.
pub fn are_among(indexes: &[u8], others: &[u8]) -> bool
    ensures { IsTrue result → All (λ index. has_index others.now index ≡ true) indexes.now }
{
    for index in indexes {
        if !stands_in(others, *index) {
            return false;
        }
    }
    true
}

/// Whether none of the indexes stands in the others.
pub fn are_apart(indexes: &[u8], others: &[u8]) -> bool
    ensures { IsTrue result → All (λ index. has_index others.now index ≡ false) indexes.now }
{
    for index in indexes {
        if stands_in(others, *index) {
            return false;
        }
    }
    true
}

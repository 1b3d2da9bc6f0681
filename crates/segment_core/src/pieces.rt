// Which pieces of a segment are healthy, and new ones in place of lost ones.
ghost use Rattle.std.specs.Prelude.{◌≡◌, ◌≢◌, ◌+◌, ◌-◌, ◌^◌, ◌<◌, ◌++◌, All, IsPermutation, filter, length, IfOk};
ghost use Rattle.segment_core.specs.Places.{IsByIndex};
ghost use Rattle.segment_core.specs.Health.{is_healthy};

use crate::segment::Segment;
use node_registry::NodeTable;
use sat_base::{At, Items, NoMemory};
use std::alloc::Global;

// Whether a piece counts: its node is known, and was neither disqualified nor has left.
fn is_healthy(table: &NodeTable, piece: At) -> bool
    ensures { result ≡ is_healthy table.now.nodes piece }
{
    match table.get(piece.node) {
        Some(node) => node.counts(),
        None => false,
    }
}

/// The pieces of a segment whose node is in the table and neither was disqualified nor has left, in order.
pub fn healthy(alloc: Global, segment: &Segment, table: &NodeTable) -> Result<Items<At>, NoMemory>
    ensures pieces { IfOk result (λ pieces. pieces
        ≡ filter (is_healthy table.now.nodes) segment.now.pieces) }
    ensures by_index { IfOk result (λ pieces. IsByIndex pieces) }
{
    let pieces = segment
        .pieces
        .as_slice()
        .iter()
        .copied()
        .filter(|piece| is_healthy(table, *piece))
        .collect(alloc)?;
    Ok(Items::of(pieces))
}

// The places of two lists in one, by index.
fn merged(alloc: Global, keep: &[At], add: &[At]) -> Result<Vec<At>, NoMemory>
    requires keep { IsByIndex keep.now }
    requires add { IsByIndex add.now }
    requires apart { All (λ old. All (λ new. old.index ≢ new.index) add.now) keep.now }
    ensures places { IfOk result (λ places. IsPermutation (keep.now ++ add.now) places.items) }
    ensures by_index { IfOk result (λ places. IsByIndex places.items) }
{
    let mut places = keep.to_vec(alloc)?;
    places.extend_from_slice(add)?;
    places.sort_unstable_by_key(|place| place.index);
    Ok(places)
}

/// The next version of a segment, whose pieces are the kept and the added ones, by rising index.
pub fn mend(alloc: Global, segment: &Segment, keep: &[At], add: &[At]) -> Result<Segment, NoMemory>
    requires keep { IsByIndex keep.now }
    requires add { IsByIndex add.now }
    requires apart { All (λ old. All (λ new. old.index ≢ new.index) add.now) keep.now }
    requires version { segment.now.version < 2 ^ 64 - 1 }
    ensures pieces { IfOk result (λ mended. IsPermutation (keep.now ++ add.now) mended.pieces) }
    ensures number { IfOk result (λ mended. length mended.pieces
        ≡ length keep.now + length add.now) }
    ensures version { IfOk result (λ mended. mended.version ≡ segment.now.version + 1) }
    ensures id { IfOk result (λ mended. mended.id ≡ segment.now.id) }
    ensures customer { IfOk result (λ mended. mended.customer ≡ segment.now.customer) }
    ensures len { IfOk result (λ mended. mended.len ≡ segment.now.len) }
{
    let pieces = merged(alloc, keep, add)?;
    Ok(Segment {
        id: segment.id,
        customer: segment.customer,
        len: segment.len,
        version: segment.version + 1,
        pieces: Items::of(pieces),
    })
}

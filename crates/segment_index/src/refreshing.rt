// A node is counted among those that no longer serve: its pieces are healthy no more.
ghost use Rattle.std.specs.Prelude.{◌≡◌, ℕ, ◌^◌, ◌<◌, true, ◌∷◌, OnOk};
ghost use Rattle.segment_index.specs.Counting.{HasKey, IsVisited, IsReady};
ghost use Rattle.segment_index.specs.Indexed.{has_room};
ghost use Rattle.segment_index.specs.Keys.{IsByNode, IsByNeed, nodes_of};
ghost use Rattle.segment_index.specs.Pairs.{has};

use crate::health::{GoneNode, Limits, repair_key};
use crate::moving::move_need;
use crate::pairs::{Pair, PairSet};
use rows::{Rows, SlottedRows};
use sat_base::{NoMemory, NodeId};
use segment_core::Segment;

// Makes room for the pair that a segment has once the node is counted.
fn place_one(
    segments: &SlottedRows<Segment>,
    counted: &Rows<GoneNode>,
    limits: Limits,
    by_need: &mut PairSet,
    node: NodeId,
    id: u64,
) -> Result<(), NoMemory>
    ensures pairs { by_need.new.rows ≡ by_need.old.rows }
    ensures placed { OnOk result (IsReady limits (node ∷ nodes_of counted.now.rows) segments.now.rows by_need.new.slots id) }
    ensures others { (rank : ℕ) → has_room by_need.old.slots rank ≡ true → has_room by_need.new.slots rank ≡ true }
{
    let segment = segments.get(u128::from(id));
    match repair_key(limits, counted, Some(node), segment) {
        Some(high) => by_need.place(Pair { high, low: id }),
        None => Ok(()),
    }
}

// Makes room for the pairs that the node's segments have once it is counted.
pub(crate) fn place_counts(
    segments: &SlottedRows<Segment>,
    by_node: &PairSet,
    counted: &Rows<GoneNode>,
    limits: Limits,
    by_need: &mut PairSet,
    node: NodeId,
) -> Result<(), NoMemory>
    ensures pairs { by_need.new.rows ≡ by_need.old.rows }
    ensures placed { OnOk result ((id : ℕ) → IsVisited by_node.now.rows node id → IsReady limits (node ∷ nodes_of counted.now.rows) segments.now.rows by_need.new.slots id) }
    ensures others { (rank : ℕ) → has_room by_need.old.slots rank ≡ true → has_room by_need.new.slots rank ≡ true }
{
    // The walk begins at 0, whether a segment of that id lies there or not.
    let mut id = 0;
    loop {
        place_one(segments, counted, limits, by_need, node, id)?;
        match by_node.next(u64::from(node.0), id) {
            Some(next) => id = next,
            None => return Ok(()),
        }
    }
}

// Puts the segment by the healthy pieces that it has once the node is counted. It takes no memory.
fn count_one(
    segments: &SlottedRows<Segment>,
    counted: &Rows<GoneNode>,
    limits: Limits,
    by_need: &mut PairSet,
    node: NodeId,
    id: u64,
)
    requires ready { IsReady limits (node ∷ nodes_of counted.now.rows) segments.now.rows by_need.old.slots id }
    requires before { (healthy : ℕ) → HasKey limits (nodes_of counted.now.rows) segments.now.rows by_need.old.rows healthy id }
    ensures after { (healthy : ℕ) → HasKey limits (node ∷ nodes_of counted.now.rows) segments.now.rows by_need.new.rows healthy id }
    ensures others { (healthy other : ℕ) → (other ≡ id → ⊥) → has by_need.new.rows (record { high = healthy; low = other }) ≡ has by_need.old.rows (record { high = healthy; low = other }) }
    ensures room { (other : ℕ) → other < 2 ^ 64 → (other ≡ id → ⊥) → IsReady limits (node ∷ nodes_of counted.now.rows) segments.now.rows by_need.old.slots other
        → IsReady limits (node ∷ nodes_of counted.now.rows) segments.now.rows by_need.new.slots other }
{
    let segment = segments.get(u128::from(id));
    let before = repair_key(limits, counted, None, segment);
    let after = repair_key(limits, counted, Some(node), segment);
    move_need(by_need, id, before, after);
}

// Puts the node's segments by the healthy pieces that they have once it is counted. It takes no memory.
pub(crate) fn count_all(
    segments: &SlottedRows<Segment>,
    by_node: &PairSet,
    counted: &Rows<GoneNode>,
    limits: Limits,
    by_need: &mut PairSet,
    node: NodeId,
)
    requires ready { (id : ℕ) → IsVisited by_node.now.rows node id → IsReady limits (node ∷ nodes_of counted.now.rows) segments.now.rows by_need.old.slots id }
    requires by_node { IsByNode segments.now.rows by_node.now.rows }
    requires by_need { IsByNeed limits (nodes_of counted.now.rows) segments.now.rows by_need.old.rows }
    ensures by_need { IsByNeed limits (node ∷ nodes_of counted.now.rows) segments.now.rows by_need.new.rows }
{
    let mut id = 0;
    loop {
        count_one(segments, counted, limits, by_need, node, id);
        match by_node.next(u64::from(node.0), id) {
            Some(next) => id = next,
            None => return,
        }
    }
}

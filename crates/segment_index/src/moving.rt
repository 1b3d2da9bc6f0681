// The pairs of one segment change.
ghost use Rattle.std.specs.Prelude.{◌≡◌, ℕ, ◌^◌, ◌<◌, true, false, ◌&&◌, ◌||◌, not, ◌==◌, if◌then◌else◌, OnOk};
ghost use Rattle.segment_index.specs.Indexed.{has_room};
ghost use Rattle.segment_index.specs.Keys.{has_piece, is_key};
ghost use Rattle.segment_index.specs.Pairs.{has, pair_rank};

use crate::pairs::{Pair, PairSet};
use sat_base::{At, NoMemory, NodeId};

// Whether one of the pieces lies on a node.
fn has_piece(pieces: &[At], node: NodeId) -> bool
    ensures { result ≡ has_piece node.0 pieces.now }
{
    pieces.iter().any(|piece| piece.node.0 == node.0)
}

// The pair of a node and an id.
pub(crate) fn pair_at(node: NodeId, id: u64) -> Pair
    ensures { result ≡ record { high = node.0; low = id } }
{
    Pair {
        high: u64::from(node.0),
        low: id,
    }
}

// Removes the pairs of a segment's pieces, but for those of the nodes where it stays.
fn drop_pieces(by_node: &mut PairSet, id: u64, pieces: &[At], stay: &[At])
    ensures pairs { (node other : ℕ) → has by_node.new.rows (record { high = node; low = other })
        ≡ (not ((other == id) && (has_piece node pieces.now && not (has_piece node stay.now))) && has by_node.old.rows (record { high = node; low = other })) }
    ensures room { (node other : ℕ) → other < 2 ^ 64 → (other ≡ id → has_piece node stay.now ≡ true)
        → has_room by_node.old.slots (pair_rank (record { high = node; low = other })) ≡ true
        → has_room by_node.new.slots (pair_rank (record { high = node; low = other })) ≡ true }
{
    for piece in pieces {
        if !has_piece(stay, piece.node) {
            by_node.remove(pair_at(piece.node, id));
        }
    }
}

// Puts the pairs of a segment's pieces.
fn add_pieces(by_node: &mut PairSet, id: u64, pieces: &[At])
    requires { (node : ℕ) → has_piece node pieces.now ≡ true → has_room by_node.old.slots (pair_rank (record { high = node; low = id })) ≡ true }
    ensures pairs { (node other : ℕ) → has by_node.new.rows (record { high = node; low = other })
        ≡ (((other == id) && has_piece node pieces.now) || has by_node.old.rows (record { high = node; low = other })) }
    ensures room { by_node.new.slots ≡ by_node.old.slots }
{
    for piece in pieces {
        by_node.put(pair_at(piece.node, id));
    }
}

// The pieces of a segment lie elsewhere. It takes no memory.
pub(crate) fn move_pieces(by_node: &mut PairSet, id: u64, before: &[At], after: &[At])
    requires placed { (node : ℕ) → has_piece node after.now ≡ true → has_room by_node.old.slots (pair_rank (record { high = node; low = id })) ≡ true }
    requires before { (node : ℕ) → has by_node.old.rows (record { high = node; low = id }) ≡ has_piece node before.now }
    ensures pairs { (node other : ℕ) → has by_node.new.rows (record { high = node; low = other })
        ≡ (if other == id then has_piece node after.now else has by_node.old.rows (record { high = node; low = other })) }
    ensures room { (node other : ℕ) → other < 2 ^ 64 → (other ≡ id → ⊥)
        → has_room by_node.old.slots (pair_rank (record { high = node; low = other })) ≡ true
        → has_room by_node.new.slots (pair_rank (record { high = node; low = other })) ≡ true }
{
    drop_pieces(by_node, id, before, after);
    add_pieces(by_node, id, after);
}

// Whether a number is that of the healthy pieces of a segment that needs repair.
fn is_key(key: Option<u64>, healthy: u64) -> bool
    ensures { result ≡ is_key key healthy }
{
    match key {
        Some(key) => key == healthy,
        None => false,
    }
}

// Removes the pair of a segment that needs repair, but for the one that stays.
fn drop_need(by_need: &mut PairSet, id: u64, key: Option<u64>, stay: Option<u64>)
    ensures pairs { (healthy other : ℕ) → has by_need.new.rows (record { high = healthy; low = other })
        ≡ (not ((other == id) && (is_key key healthy && not (is_key stay healthy))) && has by_need.old.rows (record { high = healthy; low = other })) }
    ensures room { (healthy other : ℕ) → other < 2 ^ 64 → (other ≡ id → is_key stay healthy ≡ true)
        → has_room by_need.old.slots (pair_rank (record { high = healthy; low = other })) ≡ true
        → has_room by_need.new.slots (pair_rank (record { high = healthy; low = other })) ≡ true }
{
    if let Some(high) = key
        && !is_key(stay, high)
    {
        by_need.remove(Pair { high, low: id });
    }
}

// Puts the pair of a segment that needs repair.
fn add_need(by_need: &mut PairSet, id: u64, key: Option<u64>)
    requires { (healthy : ℕ) → is_key key healthy ≡ true → has_room by_need.old.slots (pair_rank (record { high = healthy; low = id })) ≡ true }
    ensures pairs { (healthy other : ℕ) → has by_need.new.rows (record { high = healthy; low = other })
        ≡ (((other == id) && is_key key healthy) || has by_need.old.rows (record { high = healthy; low = other })) }
    ensures room { by_need.new.slots ≡ by_need.old.slots }
{
    if let Some(high) = key {
        by_need.put(Pair { high, low: id });
    }
}

// The number of healthy pieces of a segment that needs repair is another one, or it needs none. It takes no memory.
pub(crate) fn move_need(by_need: &mut PairSet, id: u64, before: Option<u64>, after: Option<u64>)
    requires placed { (healthy : ℕ) → is_key after healthy ≡ true → has_room by_need.old.slots (pair_rank (record { high = healthy; low = id })) ≡ true }
    requires before { (healthy : ℕ) → has by_need.old.rows (record { high = healthy; low = id }) ≡ is_key before healthy }
    ensures pairs { (healthy other : ℕ) → has by_need.new.rows (record { high = healthy; low = other })
        ≡ (if other == id then is_key after healthy else has by_need.old.rows (record { high = healthy; low = other })) }
    ensures room { (healthy other : ℕ) → other < 2 ^ 64 → (other ≡ id → ⊥)
        → has_room by_need.old.slots (pair_rank (record { high = healthy; low = other })) ≡ true
        → has_room by_need.new.slots (pair_rank (record { high = healthy; low = other })) ≡ true }
{
    drop_need(by_need, id, before, after);
    add_need(by_need, id, after);
}

// Makes room for the pairs of a segment's pieces.
pub(crate) fn place_pieces(by_node: &mut PairSet, id: u64, pieces: &[At]) -> Result<(), NoMemory>
    ensures pairs { by_node.new.rows ≡ by_node.old.rows }
    ensures placed { OnOk result ((node : ℕ) → has_piece node pieces.now ≡ true → has_room by_node.new.slots (pair_rank (record { high = node; low = id })) ≡ true) }
    ensures others { (rank : ℕ) → has_room by_node.old.slots rank ≡ true → has_room by_node.new.slots rank ≡ true }
{
    for piece in pieces {
        by_node.place(pair_at(piece.node, id))?;
    }
    Ok(())
}

// Gives back the room for the pairs of a segment's pieces, where there are no such pairs.
pub(crate) fn release_pieces(by_node: &mut PairSet, id: u64, pieces: &[At])
    ensures pairs { by_node.new.rows ≡ by_node.old.rows }
    ensures room { (node other : ℕ) → other < 2 ^ 64 → (other ≡ id → ⊥)
        → has_room by_node.old.slots (pair_rank (record { high = node; low = other })) ≡ true
        → has_room by_node.new.slots (pair_rank (record { high = node; low = other })) ≡ true }
    ensures gone { (node : ℕ) → has_piece node pieces.now ≡ true → has by_node.old.rows (record { high = node; low = id }) ≡ false
        → has_room by_node.new.slots (pair_rank (record { high = node; low = id })) ≡ false }
    ensures fewer { (rank : ℕ) → has_room by_node.old.slots rank ≡ false → has_room by_node.new.slots rank ≡ false }
{
    for piece in pieces {
        by_node.release(pair_at(piece.node, id));
    }
}

// How many pieces of a segment are healthy, and whether it needs repair.
ghost use Rattle.std.specs.Prelude.{◌≡◌, length, option_copied};
ghost use Rattle.segment_index.specs.Keys.{live_pieces, nodes_of, repair_key, with_node};
ghost use Rattle.segment_index.specs.Segments.{healthy_of, is_gone};

use rows::{Ranked, Rows};
use sat_base::{At, NodeId};
use segment_core::Segment;

/// A live segment needs repair with at least `k` and fewer than `m` healthy pieces.
#[derive(Clone, Copy)]
pub struct Limits {
    pub k: u8,
    pub m: u8,
}

// A node that no longer serves.
#[derive(Clone, Copy)]
pub(crate) struct GoneNode {
    pub node: NodeId,
}

impl Ranked for GoneNode {
    ghost use Rattle.segment_index.specs.Keys.{gone_rank};

    ghost rank = { gone_rank };

    fn rank(&self) -> u128 {
        u128::from(self.node.0)
    }
}

// Whether a node is one of these, or the one beside them.
fn is_gone(gone: &Rows<GoneNode>, also: Option<NodeId>, node: NodeId) -> bool
    ensures { result ≡ is_gone (with_node also (nodes_of gone.now.rows)) node }
{
    if let Some(other) = also
        && other.0 == node.0
    {
        return true;
    }
    gone.get(u128::from(node.0)).is_some()
}

// How many of the pieces are healthy.
pub(crate) fn count_healthy(gone: &Rows<GoneNode>, also: Option<NodeId>, pieces: &[At]) -> u64
    ensures { result ≡ length (healthy_of (with_node also (nodes_of gone.now.rows)) pieces.now) }
{
    let healthy = pieces
        .iter()
        .filter(|piece| !is_gone(gone, also, piece.node));
    healthy.count() as u64
}

// The number of healthy pieces of a segment that needs repair, where these nodes and one beside them are gone.
pub(crate) fn repair_key(
    limits: Limits,
    gone: &Rows<GoneNode>,
    also: Option<NodeId>,
    segment: Option<&Segment>,
) -> Option<u64>
    ensures { result ≡ repair_key limits (with_node also (nodes_of gone.now.rows)) (option_copied segment.entry) }
{
    let Some(segment) = segment else {
        return None;
    };
    if segment.version == 0 {
        return None;
    }
    let healthy = count_healthy(gone, also, segment.pieces.as_slice());
    if u64::from(limits.k) <= healthy && healthy < u64::from(limits.m) {
        Some(healthy)
    } else {
        None
    }
}

// The pieces of a live segment.
pub(crate) fn live_pieces(segment: Option<&Segment>) -> &[At]
    ensures { result.now ≡ live_pieces (option_copied segment.entry) }
{
    match segment {
        Some(segment) if segment.version != 0 => segment.pieces.as_slice(),
        _ => &[],
    }
}

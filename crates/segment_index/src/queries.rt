// The segments that are looked for.
ghost use Rattle.std.specs.Prelude.{◌≡◌, length, slice_get, option_copied};
ghost use Rattle.segment_index.specs.Segments.{live_segments, to_repair, first_at, next_at};

use crate::index::SegmentIndex;
use crate::moving::pair_at;
use sat_base::{NodeId, SegId};
use segment_core::Segment;

impl SegmentIndex {
    /// How many segments are live.
    pub fn live_len(&self) -> usize
        ensures { result ≡ length (live_segments self.now.rows) }
    {
        self.live.len()
    }

    /// The live segment at a place, counted from 0 in the order of ids. It passes over blocks of ids.
    pub fn live_at(&self, place: usize) -> Option<&Segment>
        ensures { option_copied result ≡ slice_get (live_segments self.now.rows) place }
    {
        match self.live.nth(place) {
            Some(live) => self.segments.get(u128::from(live.id)),
            None => None,
        }
    }

    /// The segment to repair, where the nodes that were counted are gone: of those that need it the one with the fewest
    /// healthy pieces, and of these the least id.
    pub fn least(&self) -> Option<&Segment>
        ensures { option_copied result ≡ to_repair self.now.limits self.now.gone self.now.rows }
    {
        match self.by_need.first() {
            Some(pair) => self.segments.get(u128::from(pair.low)),
            None => None,
        }
    }

    /// The first live segment with a piece at a node.
    pub fn first_at(&self, node: NodeId) -> Option<&Segment>
        ensures { option_copied result ≡ first_at node self.now.rows }
    {
        if self.by_node.contains(pair_at(node, 0)) {
            return self.segments.get(0);
        }
        self.next_at(node, SegId(0))
    }

    /// The first live segment above an id with a piece at a node.
    pub fn next_at(&self, node: NodeId, above: SegId) -> Option<&Segment>
        ensures { option_copied result ≡ next_at node above.0 self.now.rows }
    {
        match self.by_node.next(u64::from(node.0), above.0) {
            Some(id) => self.segments.get(u128::from(id)),
            None => None,
        }
    }
}

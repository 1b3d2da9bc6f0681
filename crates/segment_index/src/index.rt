ghost use Rattle.std.specs.Prelude.{◌≡◌, true, false, [], length, option_copied, OnOk};
ghost use Rattle.rows.specs.Rows.{without, IsRising};
ghost use Rattle.rows.specs.Slots.{with_row};
ghost use Rattle.segment_core.specs.Record.{SegmentRecord, segment_rank};
ghost use Rattle.segment_index.specs.Indexed.{IsPlaced, IsReleased, HasNoMoreRoom};
ghost use Rattle.segment_index.specs.Segments.{segment_at, is_live};

use crate::health::{GoneNode, Limits, live_pieces, repair_key};
use crate::live::{LiveId, move_live};
use crate::moving::{move_need, move_pieces, place_pieces, release_pieces};
use crate::pairs::{Pair, PairSet};
use rows::{BlockRows, Rows, SlottedRows};
use sat_base::{NoMemory, SegId};
use segment_core::Segment;
use std::alloc::Global;
use std::marker::Model;

/// The segments in the order of their ids, and by what they are looked for: which are live, which need repair, and which
/// have a piece at a node.
///
/// A node that no longer serves is noted at once ([`lose`](Self::lose)). Its pieces count as healthy until the next
/// [`refresh`](Self::refresh).
pub struct SegmentIndex {
    pub(crate) limits: Limits,
    pub(crate) segments: SlottedRows<Segment>,
    pub(crate) live: BlockRows<LiveId>,
    // Of the live segments: the pairs of a piece's node and the id.
    pub(crate) by_node: PairSet,
    // Of those that need repair: the pairs of the number of healthy pieces and the id.
    pub(crate) by_need: PairSet,
    // The nodes that no longer serve, of which `by_need` knows.
    pub(crate) counted: Rows<GoneNode>,
    // Those of which it doesn't yet.
    pub(crate) pending: Rows<GoneNode>,
}

// By hand, so that it is taken apart here, and not anew wherever one is let go.
impl Drop for SegmentIndex {
    fn drop(self) {
        let SegmentIndex {
            limits: _,
            segments: _,
            live: _,
            by_node: _,
            by_need: _,
            counted: _,
            pending: _,
        } = self;
    }
}

impl Model for SegmentIndex {
    ghost use Rattle.segment_index.specs.Indexed.{Indexed};

    ghost Value = { Indexed };

    ghost use Rattle.segment_index.specs.Keys.{IsIndexed, nodes_of};

    ghost view = { λ t. record {
      rows = t.segments.rows;
      limits = t.limits;
      gone = nodes_of t.counted.rows;
      pending = nodes_of t.pending.rows;
      room = record {
        segments = t.segments.slots;
        live = t.live.spare;
        by_node = t.by_node.slots;
        by_need = t.by_need.slots;
        lost = t.pending.spare;
      };
    } };

    ghost invariant = { λ t. IsIndexed t.limits (nodes_of t.counted.rows) t.segments.rows t.live.rows t.by_node.rows t.by_need.rows };
}

impl SegmentIndex {
    /// No segments, and no node that no longer serves.
    pub fn new(alloc: Global, limits: Limits) -> Self
        ensures rows { result.rows ≡ [] }
        ensures limits { result.limits ≡ limits }
        ensures gone { result.gone ≡ [] }
        ensures pending { result.pending ≡ [] }
    {
        SegmentIndex {
            limits,
            segments: SlottedRows::new(alloc),
            live: BlockRows::new(alloc),
            by_node: PairSet::new(alloc),
            by_need: PairSet::new(alloc),
            counted: Rows::new(alloc),
            pending: Rows::new(alloc),
        }
    }

    /// The segments in the order of their ids.
    pub fn rows(&self) -> &SlottedRows<Segment>
        ensures { result.now.rows ≡ self.now.rows }
    {
        &self.segments
    }

    /// How many segments there are.
    pub fn len(&self) -> usize
        ensures rows { result ≡ length self.now.rows }
        ensures rising { IsRising segment_rank self.now.rows }
    {
        self.segments.len()
    }

    /// The segment of an id.
    pub fn get(&self, id: SegId) -> Option<&Segment>
        ensures { option_copied result ≡ segment_at self.now.rows id.0 }
    {
        self.segments.get(u128::from(id.0))
    }

    /// Makes room for all that putting a segment takes. Running out of memory leaves segments and nodes as they were.
    pub fn place(&mut self, segment: &Segment) -> Result<(), NoMemory>
        ensures same { self.new ≡ record self.old { room = self.new.room } }
        ensures placed { OnOk result (IsPlaced self.new segment.now) }

        // Room that was made before stays.
        ensures others { (other : SegmentRecord) → IsPlaced self.old other → IsPlaced self.new other }
        ensures lost { self.new.room.lost ≡ self.old.room.lost }
    {
        let id = segment.id.0;
        let pieces = live_pieces(Some(segment));
        self.segments.place(u128::from(id))?;
        if segment.version != 0 {
            self.live.reserve()?;
        }
        place_pieces(&mut self.by_node, id, pieces)?;
        if let Some(high) = repair_key(self.limits, &self.counted, None, Some(segment)) {
            self.by_need.place(Pair { high, low: id })?;
        }
        Ok(())
    }

    /// Puts a segment, in place of the one of its id if there is one. It takes no memory.
    pub fn put(&mut self, segment: Segment)
        requires { IsPlaced self.old segment }
        ensures rows { self.new ≡ record self.old { rows = with_row segment_rank self.old.rows segment; room = self.new.room } }

        // Room for another segment stays, but for a second live one.
        ensures others { (other : SegmentRecord) → (other.id.0 ≡ segment.id.0 → ⊥) → (is_live segment ≡ true → is_live other ≡ false) → IsPlaced self.old other → IsPlaced self.new other }
        ensures lost { self.new.room.lost ≡ self.old.room.lost }
    {
        let id = segment.id.0;
        let before = self.segments.get(u128::from(id));
        let old_key = repair_key(self.limits, &self.counted, None, before);
        let new_key = repair_key(self.limits, &self.counted, None, Some(&segment));
        move_need(&mut self.by_need, id, old_key, new_key);
        move_pieces(
            &mut self.by_node,
            id,
            live_pieces(before),
            live_pieces(Some(&segment)),
        );
        move_live(&mut self.live, id, segment.version != 0);
        self.segments.put(segment);
    }

    /// Removes the segment of an id, if there is one, and its room. It takes no memory.
    pub fn remove(&mut self, id: SegId)
        ensures rows { self.new ≡ record self.old { rows = without segment_rank self.old.rows id.0; room = self.new.room } }
        ensures others { (other : SegmentRecord) → (other.id.0 ≡ id.0 → ⊥) → IsPlaced self.old other → IsPlaced self.new other }
        ensures lost { self.new.room.lost ≡ self.old.room.lost }
    {
        let before = self.segments.get(u128::from(id.0));
        let old_key = repair_key(self.limits, &self.counted, None, before);
        move_need(&mut self.by_need, id.0, old_key, None);
        move_pieces(
            &mut self.by_node,
            id.0,
            live_pieces(before),
            live_pieces(None),
        );
        move_live(&mut self.live, id.0, false);
        self.segments.remove(u128::from(id.0));
    }

    /// Gives back the room for a segment that was not put. It takes no memory.
    pub fn release(&mut self, segment: &Segment)
        ensures same { self.new ≡ record self.old { room = self.new.room } }
        ensures released { IsReleased self.new segment.now }
        ensures fewer { HasNoMoreRoom self.old.room self.new.room }
        ensures others { (other : SegmentRecord) → (other.id.0 ≡ segment.now.id.0 → ⊥) → IsPlaced self.old other → IsPlaced self.new other }
        ensures lost { self.new.room.lost ≡ self.old.room.lost }
    {
        let id = segment.id.0;
        let pieces = live_pieces(Some(segment));
        self.segments.release(u128::from(id));
        release_pieces(&mut self.by_node, id, pieces);
        if let Some(high) = repair_key(self.limits, &self.counted, None, Some(segment)) {
            self.by_need.release(Pair { high, low: id });
        }
    }
}

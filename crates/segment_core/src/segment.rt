use sat_base::{At, CustomerId, Items, Ranked, SegId};
use std::marker::Model;

/// A segment, and where its pieces lie.
///
/// Version 0 is pending: its pieces are the places that were offered for them. From version 1 on it is live,
/// and each change of its pieces raises the version.
#[derive(Drop)]
pub struct Segment {
    pub id: SegId,
    pub customer: CustomerId,
    /// How many bytes of the customer's it holds.
    pub len: u64,
    pub version: u64,
    /// Where its pieces lie, by rising index.
    pub pieces: Items<At>,
}

impl Model for Segment {
    ghost use Rattle.segment_core.specs.Record.{SegmentRecord};

    ghost Value = { SegmentRecord };

    ghost use Rattle.segment_core.specs.Places.{IsByIndex};

    ghost view = { λ s. record { id = s.id; customer = s.customer; len = s.len; version = s.version; pieces = s.pieces } };

    ghost invariant = { λ s. IsByIndex s.pieces };

    ghost inverse = { λ s. record { id = s.id; customer = s.customer; len = s.len; version = s.version; pieces = s.pieces } };
}

/// By its id.
impl Ranked for Segment {
    ghost use Rattle.segment_core.specs.Record.{segment_rank};

    ghost rank = { segment_rank };

    fn rank(&self) -> u128 {
        self.id.0 as u128
    }
}

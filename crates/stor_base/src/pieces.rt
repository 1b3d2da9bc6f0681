// Where a storage node keeps its pieces.
ghost use Rattle.std.specs.Prelude.{◌≡◌, ℕ, List, Option};
ghost use Rattle.sat_base.specs.Nodes.{is_unanswered, is_unstored};
ghost use Rattle.sat_base.specs.Outside.{CountsExactly};
ghost use Rattle.stor_base.specs.Pieces.{IsWithin, Reads, Writes};
ghost use Rattle.stor_base.specs.declared.pieces.Piece.{Piece};

use sat_base::{Bytes, Fetched, SegId, Stored};
use std::alloc::Global;

/// A piece of a segment, as it is held.
#[derive(Debug, PartialEq, Eq, Drop)]
pub struct Piece {
    pub segment: SegId,
    /// The piece's index in its segment.
    pub index: u8,
    pub bytes: Bytes,
}

/// What keeps pieces, one of a segment and an index, in memory or in a folder. A real one tells nothing of what it holds.
pub trait Pieces: Drop {
    /// The pieces that it holds, where it tells. Of two of one segment and index the first counts.
    ghost held: { Self → Option (List Piece) };

    /// How many calls have failed, up to 2^64 - 1.
    ghost faults: { Self → ℕ };

    /// Reads the bytes of a piece from an offset on, at most so many. `Missing` says that the piece isn't held, and `NoAnswer`
    /// that the read failed.
    fn read(&mut self, alloc: Global, segment: SegId, index: u8, offset: u64, len: u64) -> Fetched
        ensures told { Reads (held self.old) segment index offset len result }
        ensures within { IsWithin len result }
        ensures held { held self.new ≡ held self.old }
        ensures faults { CountsExactly (is_unanswered result) (faults self.old) (faults self.new) };

    /// Keeps bytes in place of what is held of a piece. `NoAnswer` says that the write failed. What is held of this piece is open
    /// where it isn't `Kept`.
    fn write(&mut self, alloc: Global, segment: SegId, index: u8, bytes: &[u8]) -> Stored
        ensures told { Writes (held self.old) segment index bytes.now result (held self.new) }
        ensures faults { CountsExactly (is_unstored result) (faults self.old) (faults self.new) };
}

// The bytes that nodes store, as segments are put and removed.
ghost use Rattle.std.specs.Prelude.{◌≡◌, ◌+◌, ◌^◌, ◌<◌, ◌≤◌, List, None, Some};
ghost use Rattle.sat_base.specs.declared.ids.NodeId.{NodeId};
ghost use Rattle.rows.specs.Rows.{Each, row_at, without, IsRising};
ghost use Rattle.rows.specs.Slots.{with_row};
ghost use Rattle.segment_core.specs.Record.{SegmentRecord, segment_rank};
ghost use Rattle.settlement.specs.declared.row.SettledRow.{SettledRow};
ghost use Rattle.machine_step.specs.Tables.{Setup, setup_of};
ghost use Rattle.pay_tables.specs.Amounts.{amount_at, bytes_at, live_bytes};
ghost use Rattle.pay_tables.specs.InStep.{IsInStep, IsShort};
ghost use Rattle.pay_tables.specs.Placed.{ArePiecesPlaced, KeepsPlaces};

use crate::tables::PayTables;
use sat_base::{At, Settings};
use segment_core::Segment;

/// The bytes of each piece of a live segment; those of a pending one aren't stored yet.
pub fn live_bytes(settings: &Settings, segment: &Segment) -> u64
    requires { IsShort segment.now }
    ensures { result ≡ live_bytes (setup_of settings.now) segment.now }
{
    if segment.version == 0 {
        0
    } else {
        settings.scheme.piece_len(segment.len)
    }
}

impl PayTables {
    /// Adds bytes to what each node stores at which a piece lies: those of a segment that is put. A node counts once,
    /// however many of the pieces lie at it. It takes no memory.
    pub fn raise(&mut self, pieces: &[At], bytes: u64)
        requires placed { ArePiecesPlaced self.old pieces.now }
        requires room { Each (λ piece. amount_at self.old.stored.rows piece.node + bytes < 2 ^ 128) pieces.now }
        ensures tallies { self.new.tallies.rows ≡ self.old.tallies.rows }
        ensures statements { self.new.statements.rows ≡ self.old.statements.rows }
        ensures places { KeepsPlaces self.old self.new }
        ensures amounts { (node : NodeId) → amount_at self.new.stored.rows node
            ≡ amount_at self.old.stored.rows node + bytes_at node pieces.now bytes }
        ensures keeps { (setup : Setup) (segments : List SegmentRecord) (settled : List SettledRow) (segment : SegmentRecord)
            → segment.pieces ≡ pieces.now → live_bytes setup segment ≡ bytes → IsShort segment
            → row_at segment_rank segments (segment_rank segment) ≡ None → IsInStep setup segments settled self.old
            → IsInStep setup (with_row segment_rank segments segment) settled self.new }
    {
        self.stored.raise(pieces, bytes);
    }

    /// Takes bytes off what each node stores at which a piece lies: those of a segment that is removed. A node counts
    /// once. It takes no memory.
    pub fn lower(&mut self, pieces: &[At], bytes: u64)
        requires { Each (λ piece. bytes ≤ amount_at self.old.stored.rows piece.node) pieces.now }
        ensures tallies { self.new.tallies.rows ≡ self.old.tallies.rows }
        ensures statements { self.new.statements.rows ≡ self.old.statements.rows }
        ensures places { KeepsPlaces self.old self.new }
        ensures amounts { (node : NodeId) → amount_at self.new.stored.rows node + bytes_at node pieces.now bytes
            ≡ amount_at self.old.stored.rows node }
        ensures keeps { (setup : Setup) (segments : List SegmentRecord) (settled : List SettledRow) (segment : SegmentRecord)
            → segment.pieces ≡ pieces.now → live_bytes setup segment ≡ bytes → IsRising segment_rank segments
            → row_at segment_rank segments (segment_rank segment) ≡ Some segment → IsInStep setup segments settled self.old
            → IsInStep setup (without segment_rank segments (segment_rank segment)) settled self.new }
    {
        self.stored.lower(pieces, bytes);
    }
}

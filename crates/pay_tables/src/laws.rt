// The laws, each the contract of a function that does nothing.
ghost use Rattle.std.specs.Prelude.{◌≡◌, ℕ, ◌+◌, ◌^◌, ◌<◌, ◌≤◌, if◌then◌else◌, List, length, None, Some};
ghost use Rattle.sat_base.specs.declared.ids.NodeId.{NodeId};
ghost use Rattle.rows.specs.Rows.{Each, row_at, without, IsRising};
ghost use Rattle.rows.specs.Slots.{with_row};
ghost use Rattle.node_registry.specs.declared.node.Node.{Node};
ghost use Rattle.segment_core.specs.Record.{SegmentRecord, segment_rank};
ghost use Rattle.settlement.specs.declared.row.SettledRow.{SettledRow};
ghost use Rattle.tally_payout.specs.Tariff.{IsSums};
ghost use Rattle.month_pay.specs.Ledger.{Ledger};
ghost use Rattle.month_sums.specs.Open.{sums_at};
ghost use Rattle.month_sums.specs.Closing.{GoByPots};
ghost use Rattle.machine_step.specs.Bounds.{IsSetupWithin};
ghost use Rattle.machine_step.specs.PlanRules.{is_exited};
ghost use Rattle.machine_step.specs.Stored.{stored_bytes};
ghost use Rattle.machine_step.specs.Tables.{Setup};
ghost use Rattle.pay_tables.specs.declared.balance.Balance.{Balance};
ghost use Rattle.pay_tables.specs.declared.tables.PayTables.{PayTables};
ghost use Rattle.pay_tables.specs.Amounts.{amount_at, amounts_of, live_bytes, GoByStatements};
ghost use Rattle.pay_tables.specs.InStep.{IsInStep, IsShort};
ghost use Rattle.pay_tables.specs.Placed.{IsOpen, KeepsRows};

/// What is kept of a month without a statement is within the bounds of sums, whatever the rows are: an order has eight
/// bytes and there are so many at most, and a node has a tally an hour.
pub fn open_sums_are_small()
    ensures { (setup : Setup) (segments : List SegmentRecord) (settled : List SettledRow) (p : PayTables) (node : NodeId) (month : ℕ)
        → IsInStep setup segments settled p → node.0 < 2 ^ 32 → IsOpen p month node
        → IsSums (sums_at p.sums.rows month node) }
{}

/// The bytes of another segment fit beside those that a node stores.
pub fn stored_bytes_have_room()
    ensures { (setup : Setup) (segments : List SegmentRecord) (settled : List SettledRow) (p : PayTables) (segment : SegmentRecord)
        → IsSetupWithin setup → IsInStep setup segments settled p → length segments < 2 ^ 64 → IsShort segment
        → Each (λ piece. amount_at p.stored.rows piece.node + live_bytes setup segment < 2 ^ 128) segment.pieces }
{}

/// The bytes of a segment are among those that its nodes store.
pub fn a_segment_that_is_there_is_stored()
    ensures { (setup : Setup) (segments : List SegmentRecord) (settled : List SettledRow) (p : PayTables) (segment : SegmentRecord)
        → IsInStep setup segments settled p → row_at segment_rank segments (segment_rank segment) ≡ Some segment
        → Each (λ piece. live_bytes setup segment ≤ amount_at p.stored.rows piece.node) segment.pieces }
{}

/// What is kept of a node that hasn't left is what it stores.
pub fn kept_bytes_are_those_stored()
    ensures { (setup : Setup) (segments : List SegmentRecord) (settled : List SettledRow) (p : PayTables) (node : Node)
        → IsInStep setup segments settled p
        → stored_bytes setup segments node ≡ (if is_exited node.status then 0 else amount_at p.stored.rows node.id) }
{}

/// A segment that is removed and put again changed is one in place of another, and once it is removed it is not there.
pub fn a_segment_in_place_of_another()
    ensures rows { (segments : List SegmentRecord) (segment : SegmentRecord) → IsRising segment_rank segments
        → with_row segment_rank (without segment_rank segments (segment_rank segment)) segment
        ≡ with_row segment_rank segments segment }
    ensures gone { (segments : List SegmentRecord) (k : ℕ) → row_at segment_rank (without segment_rank segments k) k ≡ None }
{}

/// Where no row changes, all stays in step.
pub fn rows_that_stay_stay_in_step()
    ensures { (setup : Setup) (segments : List SegmentRecord) (settled : List SettledRow) (old new : PayTables)
        → KeepsRows old new → IsInStep setup segments settled old → IsInStep setup segments settled new }
{}

/// The pots that are kept are those that the next month's close asks for, where all statements are of months before it.
pub fn kept_pots_go_by_a_ledger()
    ensures { (l : Ledger) (pots : List Balance) → GoByStatements pots l.statements
        → Each (λ s. s.month.0 < l.next) l.statements → GoByPots l (amounts_of pots l.nodes) }
{}

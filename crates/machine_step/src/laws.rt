// Laws of the steps, as contracts of functions that do nothing.
ghost use Rattle.std.specs.Prelude.{◌≡◌, ℕ, ◌+◌, ◌&&◌, true, false, List, Some, None};
ghost use Rattle.std.specs.List.{sum_by};
ghost use Rattle.sat_base.specs.declared.ids.NodeId.{NodeId};
ghost use Rattle.rows.specs.Rows.{row_at, without, IsRising};
ghost use Rattle.rows.specs.Slots.{with_row};
ghost use Rattle.node_registry.specs.declared.node.Node.{Node};
ghost use Rattle.node_registry.specs.Standing.{is_disqualified};
ghost use Rattle.segment_core.specs.Record.{SegmentRecord, segment_rank};
ghost use Rattle.tally_payout.specs.Statement.{last_pot};
ghost use Rattle.month_pay.specs.Ledger.{has_left};
ghost use Rattle.month_pay.specs.Keeping.{IsWhole, AreFit, of_node};
ghost use Rattle.machine_calls.specs.declared.call.Call.{Call};
ghost use Rattle.machine_calls.specs.declared.refusal.Refusal.{Refusal};
ghost use Rattle.machine_calls.specs.declared.reply.Reply.TheVariants as replies;
ghost use Rattle.machine_calls.specs.Replies.{is_request, is_lost, is_told};
ghost use Rattle.machine_step.specs.Tables.{Setup, Tables, ledger_of};
ghost use Rattle.machine_step.specs.PlanRules.{is_exited};
ghost use Rattle.machine_step.specs.Stored.{stored_bytes, share_of};
ghost use Rattle.machine_step.specs.Closed.{StaysClosed};
ghost use Rattle.machine_step.specs.Bounds.{Each, IsValid};
ghost use Rattle.machine_step.specs.Writable.{IsWritable};
ghost use Rattle.machine_step.specs.Step.{step, after, IsWellFormed};

/// A refusal changes nothing at all.
pub fn a_refusal_changes_nothing()
    ensures { (t : Tables) (call : Call) (cause : Refusal)
        → (step t call).reply ≡ replies.Refused cause → after t call ≡ t }
{}

/// Each step of what a caller requests is answered by a reply that the caller is told, and no step by one of a step that
/// wasn't made: that the store failed, or that memory ran out.
pub fn each_step_is_answered()
    ensures told { (t : Tables) (call : Call) → is_request call ≡ true → is_told (step t call).reply ≡ true }
    ensures made { (t : Tables) (call : Call) → is_lost (step t call).reply ≡ false }
{}

/// Each step of a call that is well formed keeps the rules of the tables, the order of their rows, and the bounds of
/// their records.
pub fn each_step_keeps_the_rules()
    ensures { (t : Tables) (call : Call) → IsValid t → IsWellFormed t call → IsValid (after t call) }
{}

/// Each record that a step of a well-formed call changes is one that a store can be told: what it is set up with never
/// changes, a plan that is removed is of a plan's kind, and lists have at most 128 items.
pub fn each_change_can_be_written()
    ensures { (t : Tables) (call : Call) → IsValid t → IsWellFormed t call → Each IsWritable (step t call).changes }
{}

/// A step changes nothing that a closed month was paid by, and none of its statements.
pub fn a_closed_month_stays()
    ensures { (t : Tables) (call : Call) → IsValid t → IsWellFormed t call → StaysClosed t (after t call) }
{}

/// What is paid of each statement and what is held back of it make its gross, which is what the month's rows earn at
/// the month's rates. All that was paid and returned to a node, with the pot that its statements left, is what it
/// earned.
pub fn pay_is_conserved()
    ensures whole { (t : Tables) → IsValid t → Each (IsWhole (ledger_of t)) t.statements }
    ensures node { (t : Tables) (node : NodeId) → IsValid t →
        sum_by (λ s. s.paid) (of_node node t.statements) + sum_by (λ s. s.returned) (of_node node t.statements)
        + last_pot 0 (of_node node t.statements)
        ≡ sum_by (λ s. s.parts.gross) (of_node node t.statements) }
{}

/// The tables keep the bounds that a close asks, and none of their nodes is both disqualified and gone in good order.
pub fn a_close_stays_in_bounds()
    ensures fit { (t : Tables) → IsValid t → AreFit (ledger_of t) }
    ensures apart { (t : Tables) (month : ℕ) → IsValid t
        → Each (λ node. is_disqualified node.status && has_left t.left node.id month ≡ false) t.nodes }
{}

/// A segment that is put, in place of another or not, or removed changes the bytes that a node stores by its share.
pub fn stored_bytes_follow_the_segments()
    ensures put { (setup : Setup) (segments : List SegmentRecord) (node : Node) (segment : SegmentRecord)
        → is_exited node.status ≡ false → row_at segment_rank segments (segment_rank segment) ≡ None
        → stored_bytes setup (with_row segment_rank segments segment) node
        ≡ stored_bytes setup segments node + share_of setup node.id segment }
    ensures set { (setup : Setup) (segments : List SegmentRecord) (node : Node) (segment old : SegmentRecord)
        → is_exited node.status ≡ false → IsRising segment_rank segments
        → row_at segment_rank segments (segment_rank segment) ≡ Some old
        → stored_bytes setup (with_row segment_rank segments segment) node + share_of setup node.id old
        ≡ stored_bytes setup segments node + share_of setup node.id segment }
    ensures removed { (setup : Setup) (segments : List SegmentRecord) (node : Node) (k : ℕ) (old : SegmentRecord)
        → is_exited node.status ≡ false → IsRising segment_rank segments → row_at segment_rank segments k ≡ Some old
        → stored_bytes setup (without segment_rank segments k) node + share_of setup node.id old
        ≡ stored_bytes setup segments node }
{}

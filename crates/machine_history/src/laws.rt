// Laws of histories, as contracts of functions that do nothing.
ghost use Rattle.std.specs.Prelude.{◌≡◌, ℕ, List, Some, ◌++◌};
ghost use Rattle.sat_base.specs.declared.requests.Done.{Done};
ghost use Rattle.segment_core.specs.Record.{SegmentRecord};
ghost use Rattle.machine_calls.specs.declared.call.Call.{Call};
ghost use Rattle.machine_calls.specs.declared.reply.Reply.TheVariants as replies;
ghost use Rattle.machine_step.specs.Tables.{Tables, segment_at};
ghost use Rattle.machine_step.specs.Outcome.{unchanged};
ghost use Rattle.machine_step.specs.Bounds.{IsValid};
ghost use Rattle.machine_step.specs.Closed.{StaysClosed};
ghost use Rattle.machine_step.specs.Step.{step, after};
ghost use Rattle.machine_history.specs.Repeats.{Request, request_of, after_all, AreQuiet};
ghost use Rattle.machine_history.specs.History.{Said, replay, IsLegal};
ghost use Rattle.machine_history.specs.Orders.{AreOfBytes, SettleOnce};

/// A numbered request acts once. Once it is accepted, an equal one has the same answer and changes nothing, as long
/// as no other number of its caller is accepted and nothing stops the machine.
pub fn an_equal_request_acts_once()
    ensures { (t : Tables) (r : Request) (first again : Call) (done : Done) (between : List Call)
        → request_of first ≡ Some r → request_of again ≡ Some r
        → (step t first).reply ≡ replies.Done done
        → AreQuiet r (after t first) between
        → step (after_all (after t first) between) again ≡ unchanged (replies.Done done) }
{}

/// The tables keep every rule, the order of their rows and the bounds of their records throughout a history.
pub fn each_history_keeps_the_rules()
    ensures { (t : Tables) (h : List Said) → IsValid t → IsLegal t h → IsValid (replay t h) }
{}

/// A segment that is found at two moments of a history in the same version is the same record: equal versions have
/// equal pieces.
pub fn equal_versions_are_equal()
    ensures { (t : Tables) (h more : List Said) (id : ℕ) (a b : SegmentRecord) → IsValid t → IsLegal t (h ++ more)
        → segment_at (replay t h).segments id ≡ Some a
        → segment_at (replay t (h ++ more)).segments id ≡ Some b
        → b.version ≡ a.version → b ≡ a }
{}

/// Closed months stay closed: from any moment of a history on, neither the sums of the months that are closed then nor
/// their statements change.
pub fn closed_months_stay()
    ensures { (t : Tables) (h more : List Said) → IsValid t → IsLegal t (h ++ more)
        → StaysClosed (replay t h) (replay t (h ++ more)) }
{}

/// Each order settles once: where a call was answered as settled, its bytes are a good order of the node that presented
/// it, over an amount within its limit; there was no row of its serial and node at the beginning, and no earlier call of
/// the history settled one.
pub fn each_order_settles_once()
    ensures { (t : Tables) (h : List Said) → IsValid t → IsLegal t h → AreOfBytes h → SettleOnce t h }
{}

// Laws of named segments, as contracts of functions that do nothing.
ghost use Rattle.std.specs.Prelude.{◌≡◌, ℕ, ◌+◌, true, List, Some, slice_get};
ghost use Rattle.sat_base.specs.declared.nodes.Held.{Held};
ghost use Rattle.sat_base.specs.declared.requests.Place.{Place};
ghost use Rattle.audit_core.specs.declared.verdict.Judged.{Judged};
ghost use Rattle.repair_core.specs.declared.outcome.Mended.{Mended};
ghost use Rattle.machine_calls.specs.declared.call.Call.TheVariants as calls;
ghost use Rattle.machine_calls.specs.declared.task.Task.TheVariants as tasks;
ghost use Rattle.machine_step.specs.Bounds.{IsValid};
ghost use Rattle.machine_step.specs.Tables.{Tables};
ghost use Rattle.machine_history.specs.History.{Said, IsLegal};
ghost use Rattle.machine_plans.specs.Ends.{is_audit_ended, is_repair_ended, move_end, repair_end};
ghost use Rattle.machine_plans.specs.Opened.{at_place};
ghost use Rattle.named_segments.specs.Audits.{BlamesJust, IsAnsweredWell};
ghost use Rattle.named_segments.specs.Named.{IsNamed};
ghost use Rattle.named_segments.specs.Repairs.{AreAt, IsWellMended, KeepsBytes};

/// Wherever r shares answered, at least k + 2, and at most (r - k) / 2 of them aren't the named segment's, an audit that
/// ended and wasn't superseded is clear, and blames exactly those. The audit ends at place j of a history, and the
/// segment has as many bytes as the one that is there.
pub fn an_audit_blames_the_altered()
    ensures { (t : Tables) (h : List Said) (j : ℕ) (said : Said) (now : ℕ) (judged : Judged) (named : List ℕ)
        → IsValid t → IsLegal t h → slice_get h j ≡ Some said → said.call ≡ calls.Own now (tasks.EndAudit judged)
        → is_audit_ended said.reply ≡ true → IsNamed (at_place t h j) judged.plan.segment.0 named
        → IsAnsweredWell judged named → BlamesJust judged named said.reply }
{}

/// Wherever on every stripe r shares answered, at least k, and at most (r - k) / 2 of them aren't the named segment's, the
/// version that a repair or a move makes has at least k pieces that were placed or answered, and each of these is the
/// segment's. The end stands at place j of a history.
pub fn a_repair_keeps_the_bytes()
    ensures repair { (t : Tables) (h : List Said) (j : ℕ) (said : Said) (now : ℕ) (mended : Mended) (named secret : List ℕ)
        (sources targets : List Place) (answered : List ℕ) (before behind : List Held)
        → IsValid t → IsLegal t h → slice_get h j ≡ Some said → said.call ≡ repair_end mended now
        → is_repair_ended said.reply ≡ true → IsNamed (at_place t h j) mended.plan.segment.0 named
        → AreAt mended sources targets → IsWellMended secret mended sources targets answered named before behind
        → KeepsBytes (at_place t h (j + 1)) mended answered named before behind }
    ensures exit { (t : Tables) (h : List Said) (j : ℕ) (said : Said) (now : ℕ) (mended : Mended) (named secret : List ℕ)
        (sources targets : List Place) (answered : List ℕ) (before behind : List Held)
        → IsValid t → IsLegal t h → slice_get h j ≡ Some said → said.call ≡ move_end mended now
        → is_repair_ended said.reply ≡ true → IsNamed (at_place t h j) mended.plan.segment.0 named
        → AreAt mended sources targets → IsWellMended secret mended sources targets answered named before behind
        → KeepsBytes (at_place t h (j + 1)) mended answered named before behind }
{}

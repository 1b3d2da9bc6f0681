// Laws of plans, as contracts of functions that do nothing.
ghost use Rattle.std.specs.Prelude.{◌≡◌, ◌⊎◌, ◌<◌, ◌+◌, ℕ, true, false, IsSomeAnd, List, Some, slice_get, option_map};
ghost use Rattle.sat_base.specs.declared.ids.NodeId.{NodeId};
ghost use Rattle.node_registry.specs.Registry.{node_at, contained_at};
ghost use Rattle.machine_step.specs.Calls.EndRecheck.{is_as_planned};
ghost use Rattle.node_registry.specs.Reputation.{reputation};
ghost use Rattle.machine_calls.specs.declared.call.Call.{Call};
ghost use Rattle.audit_core.specs.declared.plan.AuditPlan.{AuditPlan};
ghost use Rattle.audit_core.specs.declared.rechecking.RecheckPlan.{RecheckPlan};
ghost use Rattle.audit_core.specs.declared.rechecking.Checked.{Checked};
ghost use Rattle.audit_core.specs.declared.verdict.Judged.{Judged};
ghost use Rattle.repair_core.specs.declared.plan.RepairPlan.{RepairPlan};
ghost use Rattle.repair_core.specs.declared.plan.ExitPlan.{ExitPlan};
ghost use Rattle.repair_core.specs.declared.outcome.RepairOutcome.{RepairOutcome};
ghost use Rattle.machine_calls.specs.declared.call.Call.TheVariants as calls;
ghost use Rattle.machine_calls.specs.declared.task.Task.TheVariants as tasks;
ghost use Rattle.machine_step.specs.Tables.{Tables};
ghost use Rattle.machine_step.specs.Bounds.{IsValid};
ghost use Rattle.machine_step.specs.Step.{step, after};
ghost use Rattle.machine_plans.specs.Outcomes.{marks_in};
ghost use Rattle.machine_step.specs.Mending.{plan_of};
ghost use Rattle.machine_step.specs.Calls.EndExit.{open_move};
ghost use Rattle.machine_history.specs.History.{Said, replay, IsLegal};
ghost use Rattle.machine_plans.specs.Opened.{is_accepted, opened_audit, opened_recheck, opened_repair, opened_exit, opened_move, at_place, WasOpened};
ghost use Rattle.machine_plans.specs.Ends.{HasItsTargets, is_end, is_recheck_ended, is_audit_ended, is_repair_ended, IsSupersededBy, AsksItsPieces, IsAudited, WasAudited, IsRepaired, repair_end, move_end, WasRepaired};
ghost use Rattle.repair_core.specs.declared.outcome.Mended.{Mended};

/// The plan that an accepted end holds is the open one of its kind.
pub fn an_end_holds_the_open_plan()
    ensures audit { (t : Tables) (now : ℕ) (judged : Judged)
        → is_accepted (step t (calls.Own now (tasks.EndAudit judged))).reply ≡ true → t.audit ≡ Some judged.plan }
    ensures recheck { (t : Tables) (now : ℕ) (plan : RecheckPlan) (checked : Checked)
        → is_accepted (step t (calls.Own now (tasks.EndRecheck plan checked))).reply ≡ true → t.recheck ≡ Some plan }
    ensures repair { (t : Tables) (now : ℕ) (outcome : RepairOutcome)
        → is_accepted (step t (calls.Own now (tasks.EndRepair outcome))).reply ≡ true → t.repair ≡ Some (plan_of outcome) }
    ensures exit { (t : Tables) (now : ℕ) (outcome : RepairOutcome)
        → is_accepted (step t (calls.Own now (tasks.EndExit outcome))).reply ≡ true → open_move t ≡ Some (plan_of outcome) }
{}

/// A plan that is open behind a history was open at its beginning, or an answer of the history opened it.
pub fn an_open_plan_was_opened()
    ensures audit { (h : List Said) (t : Tables) (plan : AuditPlan) → IsLegal t h → (replay t h).audit ≡ Some plan
        → (t.audit ≡ Some plan) ⊎ WasOpened opened_audit h plan }
    ensures recheck { (h : List Said) (t : Tables) (plan : RecheckPlan) → IsLegal t h
        → (replay t h).recheck ≡ Some plan → (t.recheck ≡ Some plan) ⊎ WasOpened opened_recheck h plan }
    ensures repair { (h : List Said) (t : Tables) (plan : RepairPlan) → IsLegal t h
        → (replay t h).repair ≡ Some plan → (t.repair ≡ Some plan) ⊎ WasOpened opened_repair h plan }
    ensures exit { (h : List Said) (t : Tables) (plan : ExitPlan) → IsLegal t h → (replay t h).exit ≡ Some plan
        → (t.exit ≡ Some plan) ⊎ WasOpened opened_exit h plan }
{}

/// Where an audit ends and isn't superseded, its segment is there in the planned version, and the asked pieces are its
/// own: also where the plan was left open by an earlier term.
pub fn an_ended_audit_asks_its_pieces()
    ensures { (t : Tables) (now : ℕ) (judged : Judged) → IsValid t
        → is_audit_ended (step t (calls.Own now (tasks.EndAudit judged))).reply ≡ true → AsksItsPieces t judged }
{}

/// Where an audit ends and isn't superseded, its segment is the one that was there when it was planned: the same pieces,
/// in the planned version, the asked ones among them. The plan stands at place i of a history, the end at place j.
pub fn an_audit_ends_on_its_pieces()
    ensures { (t : Tables) (h : List Said) (i j : ℕ) (planned said : Said) (now : ℕ) (judged : Judged)
        → IsValid t → IsLegal t h → i < j → slice_get h i ≡ Some planned → slice_get h j ≡ Some said
        → opened_audit planned.reply ≡ Some judged.plan → said.call ≡ calls.Own now (tasks.EndAudit judged)
        → is_audit_ended said.reply ≡ true
        → IsAudited (at_place t h i) (at_place t h j) judged }
{}

/// Each audit of a history that ended and wasn't superseded was open at the history's beginning, or its plan stands at
/// an earlier place, at which its segment was the same.
pub fn each_ended_audit_kept_its_pieces()
    ensures { (t : Tables) (h : List Said) (j : ℕ) (said : Said) (now : ℕ) (judged : Judged)
        → IsValid t → IsLegal t h → slice_get h j ≡ Some said → said.call ≡ calls.Own now (tasks.EndAudit judged)
        → is_audit_ended said.reply ≡ true
        → (t.audit ≡ Some judged.plan) ⊎ WasAudited t h j judged }
{}

/// An accepted end is answered as superseded exactly where its segment has another version than the planned one, and
/// shows both; a segment that is gone has version 0.
pub fn an_end_is_superseded_by_the_version()
    ensures audit { (t : Tables) (now : ℕ) (judged : Judged) → IsValid t
        → is_accepted (step t (calls.Own now (tasks.EndAudit judged))).reply ≡ true
        → IsSupersededBy t judged.plan.segment.0 judged.plan.version (step t (calls.Own now (tasks.EndAudit judged))).reply }
    ensures repair { (t : Tables) (now : ℕ) (outcome : RepairOutcome) → IsValid t
        → is_accepted (step t (calls.Own now (tasks.EndRepair outcome))).reply ≡ true
        → IsSupersededBy t (plan_of outcome).segment.0 (plan_of outcome).version (step t (calls.Own now (tasks.EndRepair outcome))).reply }
    ensures exit { (t : Tables) (now : ℕ) (outcome : RepairOutcome) → IsValid t
        → is_accepted (step t (calls.Own now (tasks.EndExit outcome))).reply ≡ true
        → IsSupersededBy t (plan_of outcome).segment.0 (plan_of outcome).version (step t (calls.Own now (tasks.EndExit outcome))).reply }
{}

/// Where a repair or a move ends and mended its segment, the segment is the one that was there when it was planned, and
/// its next version has just sources that were neither altered nor missing, and targets that were placed, at least k.
pub fn a_repair_ends_on_its_pieces()
    ensures repair { (t : Tables) (h : List Said) (i j : ℕ) (planned said : Said) (now : ℕ) (mended : Mended)
        → IsValid t → IsLegal t h → i < j → slice_get h i ≡ Some planned → slice_get h j ≡ Some said
        → opened_repair planned.reply ≡ Some mended.plan → said.call ≡ repair_end mended now
        → is_repair_ended said.reply ≡ true
        → IsRepaired (at_place t h i) (at_place t h j) (at_place t h (j + 1)) mended }
    ensures exit { (t : Tables) (h : List Said) (i j : ℕ) (planned said : Said) (now : ℕ) (mended : Mended)
        → IsValid t → IsLegal t h → i < j → slice_get h i ≡ Some planned → slice_get h j ≡ Some said
        → opened_move planned.reply ≡ Some mended.plan → said.call ≡ move_end mended now
        → is_repair_ended said.reply ≡ true
        → IsRepaired (at_place t h i) (at_place t h j) (at_place t h (j + 1)) mended }
{}

/// Each repair or move of a history that mended its segment was open at the history's beginning, or its plan stands at
/// an earlier place, at which its segment was the same.
pub fn each_ended_repair_kept_its_pieces()
    ensures repair { (t : Tables) (h : List Said) (j : ℕ) (said : Said) (now : ℕ) (mended : Mended)
        → IsValid t → IsLegal t h → slice_get h j ≡ Some said → said.call ≡ repair_end mended now
        → is_repair_ended said.reply ≡ true
        → (t.repair ≡ Some mended.plan) ⊎ WasRepaired opened_repair t h j mended }
    ensures exit { (t : Tables) (h : List Said) (j : ℕ) (said : Said) (now : ℕ) (mended : Mended)
        → IsValid t → IsLegal t h → slice_get h j ≡ Some said → said.call ≡ move_end mended now
        → is_repair_ended said.reply ≡ true
        → (open_move t ≡ Some mended.plan) ⊎ WasRepaired opened_move t h j mended }
{}

/// Where a plan ends, each node's reputation is what it was before with just the outcomes that the end brings it, one
/// at most: of an audit what it says of the node's piece, of a recheck what it found, of a repair or a move a fail for a
/// source that is altered or missing. A node that doesn't serve gets none.
pub fn an_end_gives_its_outcomes()
    ensures { (t : Tables) (call : Call) (id : NodeId) → IsValid t → is_end call ≡ true
        → node_at (after t call).nodes id
        ≡ option_map (λ node. reputation node (marks_in id call (step t call).reply)) (node_at t.nodes id) }
{}

/// An end changes no piece of any segment, unless it mended one.
pub fn only_a_mended_end_changes_pieces()
    ensures { (t : Tables) (call : Call) → is_end call ≡ true → is_repair_ended (step t call).reply ≡ false
        → (after t call).segments ≡ t.segments }
{}

/// Asking a silent node again counts only where its containment still stands as planned.
pub fn a_recheck_counts_as_planned()
    ensures { (t : Tables) (now : ℕ) (plan : RecheckPlan) (checked : Checked)
        → is_recheck_ended (step t (calls.Own now (tasks.EndRecheck plan checked))).reply ≡ true
        → IsSomeAnd (contained_at t.containments plan.node) (λ c. is_as_planned plan c ≡ true) }
{}

/// A planned repair has a target for each place that is wanted, or for each subnet where fewer are eligible, and at
/// least one.
pub fn a_planned_repair_has_its_targets()
    ensures { (t : Tables) (now : ℕ) (words : List ℕ) (plan : RepairPlan) → IsValid t
        → opened_repair (step t (calls.Own now (tasks.PlanRepair words))).reply ≡ Some plan → HasItsTargets t words plan }
{}

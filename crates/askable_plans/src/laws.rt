// Laws of plans, as contracts of functions that do nothing.
ghost use Rattle.std.specs.Prelude.{◌≡◌, ℕ, List, [], ◌∷◌};
ghost use Rattle.sat_base.specs.Moments.{IsMoment};
ghost use Rattle.sat_base.specs.declared.requests.Place.{Place};
ghost use Rattle.sat_base.specs.declared.scheme.Scheme.{Scheme};
ghost use Rattle.audit_core.specs.declared.plan.AuditPlan.{AuditPlan};
ghost use Rattle.audit_core.specs.declared.rechecking.RecheckPlan.{RecheckPlan};
ghost use Rattle.repair_core.specs.declared.plan.ExitPlan.{ExitPlan};
ghost use Rattle.repair_core.specs.declared.plan.RepairPlan.{RepairPlan};
ghost use Rattle.machine_calls.specs.declared.call.Call.TheVariants as calls;
ghost use Rattle.machine_calls.specs.declared.task.Task.TheVariants as tasks;
ghost use Rattle.machine_calls.specs.declared.reply.Reply.TheVariants as replies;
ghost use Rattle.machine_step.specs.Bounds.{IsValid};
ghost use Rattle.machine_step.specs.Step.{IsSchemeOf, step};
ghost use Rattle.machine_step.specs.Tables.{Tables};
ghost use Rattle.askable_plans.specs.Askable.{IsAuditable, IsRecheckable, IsRepairable};

/// A planned audit can be asked at its places.
pub fn a_planned_audit_can_be_asked()
    ensures { (t : Tables) (scheme : Scheme) (now : ℕ) (words : List ℕ) (plan : AuditPlan) (places : List Place) → IsValid t
        → IsSchemeOf t.setup scheme → (step t (calls.Own now (tasks.PlanAudit words))).reply ≡ replies.AuditPlanned plan places
        → IsAuditable scheme plan places }
{}

/// A planned recheck can be asked at its place.
pub fn a_planned_recheck_can_be_asked()
    ensures { (t : Tables) (now : ℕ) (plan : RecheckPlan) (place : Place) → IsValid t
        → (step t (calls.Own now tasks.PlanRecheck)).reply ≡ replies.RecheckPlanned plan place → IsRecheckable plan place }
{}

/// A planned repair can be asked at its sources, and its pieces put at its targets.
pub fn a_planned_repair_can_be_asked()
    ensures { (t : Tables) (scheme : Scheme) (now : ℕ) (words : List ℕ) (plan : RepairPlan) (sources targets : List Place)
        → IsValid t → IsMoment now → IsSchemeOf t.setup scheme
        → (step t (calls.Own now (tasks.PlanRepair words))).reply ≡ replies.RepairPlanned plan sources targets
        → IsRepairable scheme plan sources targets }
{}

/// So can the planned move of a piece.
pub fn a_planned_move_can_be_asked()
    ensures { (t : Tables) (scheme : Scheme) (now : ℕ) (words : List ℕ) (exit : ExitPlan) (sources : List Place) (target : Place)
        → IsValid t → IsSchemeOf t.setup scheme
        → (step t (calls.Own now (tasks.PlanExit words))).reply ≡ replies.ExitPlanned exit sources target
        → IsRepairable scheme exit.plan sources (target ∷ []) }
{}

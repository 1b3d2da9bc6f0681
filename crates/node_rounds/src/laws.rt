// Laws of rounds, as contracts of functions that do nothing.
ghost use Rattle.std.specs.Prelude.{◌≡◌, ℕ, ◌+◌, true, List, Some, slice_get};
ghost use Rattle.sat_base.specs.declared.nodes.Held.{Held};
ghost use Rattle.sat_base.specs.declared.requests.Place.{Place};
ghost use Rattle.sat_base.specs.declared.scheme.Scheme.{Scheme};
ghost use Rattle.sat_base.specs.Outside.{raised};
ghost use Rattle.audit_core.specs.declared.rechecking.Checked.{Checked};
ghost use Rattle.audit_core.specs.declared.rechecking.Checked.TheVariants as checks;
ghost use Rattle.audit_core.specs.declared.rechecking.RecheckPlan.{RecheckPlan};
ghost use Rattle.repair_core.specs.declared.outcome.Mended.{Mended};
ghost use Rattle.repair_core.specs.declared.outcome.RepairOutcome.TheVariants as repairs;
ghost use Rattle.repair_core.specs.declared.plan.RepairPlan.{RepairPlan};
ghost use Rattle.machine_step.specs.Bounds.{IsValid};
ghost use Rattle.machine_step.specs.Tables.{Tables};
ghost use Rattle.machine_history.specs.History.{IsLegal, Said};
ghost use Rattle.machine_plans.specs.Ends.{is_repair_ended, move_end, repair_end};
ghost use Rattle.machine_plans.specs.Opened.{at_place};
ghost use Rattle.node_asks.specs.Asks.{recheck_ask};
ghost use Rattle.named_segments.specs.Named.{IsNamed};
ghost use Rattle.node_rounds.specs.Asked.{IsRechecked, IsRepaired};
ghost use Rattle.node_rounds.specs.Clauses.{SaysOfHeld};
ghost use Rattle.node_rounds.specs.Keeps.{KeepsNamed};
ghost use Rattle.node_rounds.specs.declared.kit.NodesView.{NodesView};

/// Where nodes tell what they hold, a recheck passes only where the digest of the asked range of it is the expected one,
/// and fails only where it isn't or nothing is held. It is silent only where the nodes' count rose.
pub fn a_recheck_says_what_is_held()
    ensures held { (secret : List ℕ) (scheme : Scheme) (plan : RecheckPlan) (place : Place) (old : NodesView) (found : Checked)
        (new : NodesView) (pieces : List Held) → IsRechecked secret scheme plan place old found new → old.held ≡ Some pieces
        → SaysOfHeld pieces (recheck_ask secret scheme plan place) plan.expect found }
    ensures silent { (secret : List ℕ) (scheme : Scheme) (plan : RecheckPlan) (place : Place) (old : NodesView) (found : Checked)
        (new : NodesView) → IsRechecked secret scheme plan place old found new → found ≡ checks.Silent
        → new.faults ≡ raised old.faults }
{}

/// A repair of a round that mended a segment, or moved a piece of it, keeps the bytes of the segment that the reader names,
/// wherever on every stripe r of its sources answered, at least k, and at most (r - k) / 2 of them with other shares: so
/// stands the version behind its accepted end, at place j of a history.
pub fn a_repair_of_a_round_keeps_the_bytes()
    ensures repair { (t : Tables) (h : List Said) (j : ℕ) (said : Said) (now : ℕ) (mended : Mended) (named secret : List ℕ)
        (scheme : Scheme) (plan : RepairPlan) (sources targets : List Place) (old new : NodesView) (before : List Held)
        → IsValid t → IsLegal t h → slice_get h j ≡ Some said → said.call ≡ repair_end mended now
        → is_repair_ended said.reply ≡ true → IsNamed (at_place t h j) mended.plan.segment.0 named
        → IsRepaired secret scheme plan sources targets old (repairs.Mended mended) new → old.held ≡ Some before
        → KeepsNamed (at_place t h (j + 1)) secret mended sources named before new }
    ensures exit { (t : Tables) (h : List Said) (j : ℕ) (said : Said) (now : ℕ) (mended : Mended) (named secret : List ℕ)
        (scheme : Scheme) (plan : RepairPlan) (sources targets : List Place) (old new : NodesView) (before : List Held)
        → IsValid t → IsLegal t h → slice_get h j ≡ Some said → said.call ≡ move_end mended now
        → is_repair_ended said.reply ≡ true → IsNamed (at_place t h j) mended.plan.segment.0 named
        → IsRepaired secret scheme plan sources targets old (repairs.Mended mended) new → old.held ≡ Some before
        → KeepsNamed (at_place t h (j + 1)) secret mended sources named before new }
{}

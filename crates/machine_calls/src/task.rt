// What a satellite does on its own account.
use audit_core::{Checked, Judged, RecheckPlan};
use repair_core::RepairOutcome;
use sat_base::Words64;

/// What the satellite asks of its machine on its own account: the upkeep of what nodes hold, and what they are owed.
pub enum Task {
    /// An audit is to be planned. There are 2 random words.
    PlanAudit { words: Words64 },
    /// What the open audit found.
    EndAudit { judged: Judged },
    /// A silent node is to be asked again.
    PlanRecheck,
    /// What asking it again found.
    EndRecheck { plan: RecheckPlan, checked: Checked },
    /// A repair is to be planned. There are 128 random words.
    PlanRepair { words: Words64 },
    /// What came of the open repair.
    EndRepair { outcome: RepairOutcome },
    /// The bytes that nodes keep are to be counted for the hour.
    TallyHour,
    /// A piece of a node that leaves is to be made afresh elsewhere. There are 128 random words.
    PlanExit { words: Words64 },
    /// What came of the open exit plan.
    EndExit { outcome: RepairOutcome },
}

// By hand, so that a task is taken apart here, and not anew wherever one is let go.
impl Drop for Task {
    fn drop(self) {
        match self {
            Task::PlanAudit { words: _ } => {}
            Task::EndAudit { judged: _ } => {}
            Task::PlanRecheck => {}
            Task::EndRecheck {
                plan: _,
                checked: _,
            } => {}
            Task::PlanRepair { words: _ } => {}
            Task::EndRepair { outcome: _ } => {}
            Task::TallyHour => {}
            Task::PlanExit { words: _ } => {}
            Task::EndExit { outcome: _ } => {}
        }
    }
}

// The open plans.
ghost use Rattle.std.specs.Prelude.{◌≡◌, ◌≤◌, length};
ghost use Rattle.machine_step.specs.Health.{first_of};
ghost use Rattle.machine_step.specs.Tables.{closed};
ghost use Rattle.machine_store.specs.Plans.{closed_in};

use audit_core::{AuditPlan, RecheckPlan};
use repair_core::{ExitPlan, RepairPlan};
use sat_base::kinds;

// The open plans, one of each kind at most.
#[derive(Drop)]
pub struct Plans {
    pub audit: Option<AuditPlan>,
    pub recheck: Option<RecheckPlan>,
    pub repair: Option<RepairPlan>,
    pub exit: Option<ExitPlan>,
}

// A plan of one kind, once the plan of a kind is closed.
fn close_own<P: Drop>(own: u8, kind: u8, plan: &mut Option<P>)
    ensures { plan.new ≡ closed own kind plan.old }
{
    if kind == own {
        *plan = None;
    }
}

impl Plans {
    // Closes the plan of a kind.
    pub fn close(&mut self, kind: u8)
        ensures { self.new ≡ closed_in self.old kind }
    {
        close_own(kinds::AUDIT_PLAN, kind, &mut self.audit);
        close_own(kinds::RECHECK_PLAN, kind, &mut self.recheck);
        close_own(kinds::REPAIR_PLAN, kind, &mut self.repair);
        close_own(kinds::EXIT_PLAN, kind, &mut self.exit);
    }
}

// The only plan of a list, if there is one.
pub(crate) fn sole<P: Drop>(plans: Vec<P>) -> Option<P>
    requires { length plans.items ≤ 1 }
    ensures { result ≡ first_of plans.items }
{
    let mut plans = plans;
    match plans.pop() {
        Some(plan) => Some(plan),
        None => None,
    }
}

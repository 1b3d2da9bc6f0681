// A repair ends.
ghost use Rattle.std.specs.Prelude.{◌≡◌, option_copied, IfOk};
ghost use Rattle.machine_step.specs.Bounds.{IsValid};
ghost use Rattle.machine_step.specs.Calls.EndRepair.{end_repair};
ghost use Rattle.machine_store.specs.Prepared.{Holds};
ghost use Rattle.machine_store.specs.Store.{tables_of};

use crate::mending::end_mending;
use machine_store::{Plans, Prepared, Store};
use repair_core::{RepairOutcome, RepairPlan};
use sat_base::{Moment, NoMemory, kinds};
use std::alloc::Global;

// The open repair.
fn open_repair(plans: &Plans) -> Option<&RepairPlan>
    ensures { option_copied result ≡ plans.now.repair }
{
    match &plans.repair {
        Some(plan) => Some(plan),
        None => None,
    }
}

pub(crate) fn end_repair(
    alloc: Global,
    store: &Store,
    time: Moment,
    outcome: &RepairOutcome,
) -> Result<Prepared, NoMemory>
    requires { IsValid (tables_of store.now) }
    ensures { IfOk result (λ p. Holds p (end_repair (tables_of store.now) time outcome.now)) }
{
    let opened = open_repair(&store.plans);
    end_mending(alloc, store, time, kinds::REPAIR_PLAN, opened, outcome)
}

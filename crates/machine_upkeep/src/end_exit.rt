// The move of a piece of a node that leaves ends.
ghost use Rattle.std.specs.Prelude.{◌≡◌, option_copied, IfOk};
ghost use Rattle.std.specs.Option.{option_map};
ghost use Rattle.machine_step.specs.Bounds.{IsValid};
ghost use Rattle.machine_step.specs.Calls.EndExit.{move_of, end_exit};
ghost use Rattle.machine_store.specs.Prepared.{Holds};
ghost use Rattle.machine_store.specs.Store.{tables_of};

use crate::mending::end_mending;
use machine_store::{Plans, Prepared, Store};
use repair_core::{RepairOutcome, RepairPlan};
use sat_base::{Moment, NoMemory, kinds};
use std::alloc::Global;

// The repair of the open move.
fn open_move(plans: &Plans) -> Option<&RepairPlan>
    ensures { option_copied result ≡ option_map move_of plans.now.exit }
{
    match &plans.exit {
        Some(exit) => Some(&exit.plan),
        None => None,
    }
}

pub(crate) fn end_exit(
    alloc: Global,
    store: &Store,
    time: Moment,
    outcome: &RepairOutcome,
) -> Result<Prepared, NoMemory>
    requires { IsValid (tables_of store.now) }
    ensures { IfOk result (λ p. Holds p (end_exit (tables_of store.now) time outcome.now)) }
{
    let opened = open_move(&store.plans);
    end_mending(alloc, store, time, kinds::EXIT_PLAN, opened, outcome)
}

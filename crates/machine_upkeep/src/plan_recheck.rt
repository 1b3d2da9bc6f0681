// A silent node is to be asked again: the contained one with the least id.
ghost use Rattle.std.specs.Prelude.{◌≡◌, false, IfOk};
ghost use Rattle.machine_step.specs.Calls.PlanRecheck.{recheck_of, recheck_planned, plan_recheck};
ghost use Rattle.machine_step.specs.Containment.{place_of};
ghost use Rattle.machine_step.specs.Plans.{has_no_plan};
ghost use Rattle.machine_store.specs.Prepared.{Holds};
ghost use Rattle.machine_store.specs.Store.{tables_of};

use crate::closing::{drawn, has_no_plan};
use audit_core::RecheckPlan;
use machine_calls::{RecChange, Refusal, Reply, TableName};
use machine_store::{Prepared, Store, accepted, place_at, refused, table_full};
use sat_base::{At, Containment, Moment, NoMemory, Serial};
use std::alloc::Global;

// The share that the node of a containment owes.
fn recheck_of(store: &Store, time: Moment, row: &Containment) -> RecheckPlan
    ensures { result ≡ recheck_of (tables_of store.now) time row.now }
{
    RecheckPlan {
        plan: store.marks.plan,
        serial: Serial(store.marks.serial),
        issued: time,
        node: row.node,
        segment: row.segment,
        index: row.index,
        stripe: row.stripe,
        expect: row.expect,
    }
}

// The place of the piece of which the node owes a share.
fn place_of(row: &Containment) -> At
    ensures { result ≡ place_of row.now }
{
    At {
        index: row.index,
        node: row.node,
    }
}

fn recheck_planned(
    alloc: Global,
    store: &Store,
    time: Moment,
    row: &Containment,
) -> Result<Prepared, NoMemory>
    requires { has_no_plan store.now.marks ≡ false }
    ensures { IfOk result (λ p. Holds p (recheck_planned (tables_of store.now) time row.now)) }
{
    let plan = &recheck_of(store, time, row);
    let place = place_at(&store.nodes, place_of(row));
    let put = RecChange::RecheckPlan(*plan);
    let reply = Reply::RecheckPlanned { plan: *plan, place };
    accepted(alloc, drawn(store, time), put, reply)
}

pub(crate) fn plan_recheck(alloc: Global, store: &Store, time: Moment) -> Result<Prepared, NoMemory>
    ensures { IfOk result (λ p. Holds p (plan_recheck (tables_of store.now) time)) }
{
    let Some(row) = store.containments.first() else {
        return Ok(refused(alloc, Refusal::NothingToRecheck));
    };
    if has_no_plan(&store.marks) {
        return Ok(table_full(alloc, TableName::Numbers));
    }
    recheck_planned(alloc, store, time, row)
}

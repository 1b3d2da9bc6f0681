// A silent node was asked again.
ghost use Rattle.std.specs.Prelude.{◌≡◌, ◌<◌, ◌∷◌, ◌++◌, [], IfOk};
ghost use Rattle.sat_base.specs.declared.limits.TheConstants as limits;
ghost use Rattle.machine_calls.specs.declared.change.RecChange.{RecChange};
ghost use Rattle.machine_step.specs.Calls.EndRecheck.{is_as_planned, still_owed, settled_as, recheck_ended, end_recheck};
ghost use Rattle.machine_step.specs.Bounds.{IsValid};
ghost use Rattle.machine_step.specs.Plans.{same_recheck, is_open, open_number};
ghost use Rattle.machine_store.specs.Prepared.{Holds};
ghost use Rattle.machine_upkeep.specs.Rated.{AllRated};
ghost use Rattle.machine_store.specs.Store.{tables_of};

use crate::closing::{after_outcome, closing};
use audit_core::{Checked, RecheckPlan};
use machine_calls::{RecChange, Refusal, Reply};
use machine_store::{Prepared, Store, refused};
use node_registry::Outcome;
use sat_base::{Containment, Key, Moment, NoMemory, kinds, limits};
use std::alloc::Global;

// Whether the open recheck is this one.
fn is_open(opened: Option<RecheckPlan>, plan: &RecheckPlan) -> bool
    ensures { result ≡ is_open same_recheck opened plan.now }
{
    match opened {
        Some(opened) => opened == *plan,
        None => false,
    }
}

// The number of the open recheck, or 0.
fn open_number(opened: Option<RecheckPlan>) -> u64
    ensures { result ≡ open_number (λ plan. plan.plan) opened }
{
    match opened {
        Some(plan) => plan.plan,
        None => 0,
    }
}

// Whether a containment is the one of the plan.
fn is_as_planned(plan: &RecheckPlan, row: &Containment) -> bool
    ensures { result ≡ is_as_planned plan.now row.now }
{
    row.segment.0 == plan.segment.0
        && row.index == plan.index
        && row.stripe == plan.stripe
        && row.expect == plan.expect
}

// The containment, where it still stands as planned.
fn still_owed(store: &Store, plan: &RecheckPlan) -> Option<Containment>
    ensures { result ≡ still_owed (tables_of store.now) plan.now }
{
    match store.containments.get(u128::from(plan.node.0)) {
        Some(row) if is_as_planned(plan, row) => Some(*row),
        _ => None,
    }
}

// The node gets its outcome, and is released.
fn settled_as(
    store: &Store,
    changes: Vec<RecChange>,
    row: Containment,
    mark: Outcome,
) -> Result<Vec<RecChange>, NoMemory>
    requires { AllRated store.now.nodes.nodes }
    ensures { IfOk result (λ all. all.items ≡ changes.items ++ settled_as (tables_of store.now) row mark) }
{
    let mut changes = changes;
    if let Some(node) = after_outcome(&store.nodes, row.node, mark) {
        changes.push(RecChange::Node(node))?;
    }
    changes.push(RecChange::Remove(Key::Containment(row.node)))?;
    Ok(changes)
}

// It was silent, not for the last time.
fn silent_again(
    changes: Vec<RecChange>,
    row: Containment,
    tries: u8,
) -> Result<Vec<RecChange>, NoMemory>
    ensures { IfOk result (λ all. all.items ≡ changes.items ++ RecChange.Containment (record row { tries = tries }) ∷ []) }
{
    let mut changes = changes;
    changes.push(RecChange::Containment(Containment { tries, ..row }))?;
    Ok(changes)
}

fn recheck_ended(
    alloc: Global,
    store: &Store,
    time: Moment,
    checked: Checked,
    row: Containment,
) -> Result<Prepared, NoMemory>
    requires rated { AllRated store.now.nodes.nodes }
    requires tries { row.tries < limits.TRIES }
    ensures { IfOk result (λ p. Holds p (recheck_ended (tables_of store.now) time checked row)) }
{
    let changes = closing(alloc, store, time, kinds::RECHECK_PLAN)?;
    let (changes, tries) = match checked {
        Checked::Pass => (settled_as(store, changes, row, Outcome::Pass)?, row.tries),
        Checked::Fail => (settled_as(store, changes, row, Outcome::Fail)?, row.tries),
        Checked::Silent if row.tries + 1 == limits::TRIES => {
            (
                settled_as(store, changes, row, Outcome::Fail)?,
                row.tries + 1,
            )
        }
        Checked::Silent => (silent_again(changes, row, row.tries + 1)?, row.tries + 1),
    };
    Ok(Prepared {
        reply: Reply::RecheckEnded { checked, tries },
        changes,
    })
}

pub(crate) fn end_recheck(
    alloc: Global,
    store: &Store,
    time: Moment,
    plan: &RecheckPlan,
    checked: Checked,
) -> Result<Prepared, NoMemory>
    requires { IsValid (tables_of store.now) }
    ensures { IfOk result (λ p. Holds p (end_recheck (tables_of store.now) time plan.now checked)) }
{
    if !is_open(store.plans.recheck, plan) {
        let kept = open_number(store.plans.recheck);
        return Ok(refused(alloc, Refusal::NoPlan { kept }));
    }
    match still_owed(store, plan) {
        Some(row) => recheck_ended(alloc, store, time, checked, row),
        None => Ok(Prepared {
            reply: Reply::Gone,
            changes: closing(alloc, store, time, kinds::RECHECK_PLAN)?,
        }),
    }
}

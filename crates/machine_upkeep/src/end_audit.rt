// An audit ends: its nodes get their outcomes, and the silent ones are contained.
ghost use Rattle.std.specs.Prelude.{◌≡◌, ◌≤◌, ◌++◌, map, length, Some, IfOk};
ghost use Rattle.machine_calls.specs.declared.change.RecChange.{RecChange};
ghost use Rattle.machine_step.specs.Bounds.{IsValid};
ghost use Rattle.machine_step.specs.Calls.EndAudit.{is_clear, audit_ended, end_audit};
ghost use Rattle.machine_step.specs.Plans.{same_audit, is_open, open_number};
ghost use Rattle.machine_step.specs.Step.{IsSchemeOf};
ghost use Rattle.machine_store.specs.Prepared.{Holds};
ghost use Rattle.machine_upkeep.specs.Rated.{AllRated};
ghost use Rattle.machine_store.specs.Store.{tables_of};

use crate::closing::{and_nodes, closing, superseded, version_of};
use crate::judging::{blamed_of, containments_after, indexes_of, nodes_after};
use audit_core::{AuditPlan, Judged, Verdict};
use machine_calls::{RecChange, Refusal, Reply};
use machine_store::{Prepared, Store, refused};
use node_registry::Node;
use sat_base::{Containment, Moment, NoMemory, kinds};
use std::alloc::Global;

// Whether the open audit is this one.
fn is_open(opened: &Option<AuditPlan>, plan: &AuditPlan) -> bool
    ensures { result ≡ is_open same_audit opened.now plan.now }
{
    match opened {
        Some(opened) => *opened == *plan,
        None => false,
    }
}

// The number of the open audit, or 0.
fn open_number(opened: &Option<AuditPlan>) -> u64
    ensures { result ≡ open_number (λ plan. plan.plan) opened.now }
{
    match opened {
        Some(plan) => plan.plan,
        None => 0,
    }
}

// Changes, behind them those of nodes, and of containments.
fn and_puts(
    changes: Vec<RecChange>,
    nodes: &[Node],
    contained: &[Containment],
) -> Result<Vec<RecChange>, NoMemory>
    ensures { IfOk result (λ all. all.items ≡ changes.items ++ (map RecChange.Node nodes.now ++ map RecChange.Containment contained.now)) }
{
    let mut changes = and_nodes(changes, nodes)?;
    for containment in contained {
        changes.push(RecChange::Containment(*containment))?;
    }
    Ok(changes)
}

fn is_clear(verdict: &Verdict) -> bool
    ensures { result ≡ is_clear verdict.now }
{
    matches!(verdict, Verdict::Clear { .. })
}

// The audit ends.
fn audit_ended(
    alloc: Global,
    store: &Store,
    time: Moment,
    judged: &Judged,
) -> Result<Prepared, NoMemory>
    requires rated { AllRated store.now.nodes.nodes }
    requires few { length judged.now.answers ≤ 128 }
    ensures { IfOk result (λ p. Holds p (audit_ended (tables_of store.now) time judged.now)) }
{
    let nodes = nodes_after(alloc, &store.nodes, judged)?;
    let contained = containments_after(alloc, store, judged)?;
    let changes = closing(alloc, store, time, kinds::AUDIT_PLAN)?;
    let changes = and_puts(changes, nodes.as_slice(), contained.as_slice())?;
    let reply = Reply::AuditEnded {
        clear: is_clear(&judged.verdict),
        blamed: blamed_of(alloc, &judged.verdict)?,
        missing: judged.missing.copy(alloc)?,
        contained: indexes_of(alloc, contained.as_slice())?,
        answered: judged.answers.len() as u8,
    };
    Ok(Prepared { reply, changes })
}

pub(crate) fn end_audit(
    alloc: Global,
    store: &Store,
    time: Moment,
    judged: &Judged,
) -> Result<Prepared, NoMemory>
    requires valid { IsValid (tables_of store.now) }
    requires scheme { IsSchemeOf (tables_of store.now).setup judged.now.scheme }
    ensures { IfOk result (λ p. Holds p (end_audit (tables_of store.now) time judged.now)) }
{
    if !is_open(&store.plans.audit, &judged.plan) {
        let kept = open_number(&store.plans.audit);
        return Ok(refused(alloc, Refusal::NoPlan { kept }));
    }
    let version = version_of(store, judged.plan.segment);
    if version != judged.plan.version {
        let planned = judged.plan.version;
        return superseded(alloc, store, time, kinds::AUDIT_PLAN, planned, version);
    }
    audit_ended(alloc, store, time, judged)
}

// An audit is planned: of one stripe of a live segment.
ghost use Rattle.std.specs.Prelude.{◌≡◌, ◌≤◌, ◌^◌, ◌%◌, false, length, filter, option_copied, IfOk};
ghost use Rattle.sat_base.specs.Scheme.{stripe_count};
ghost use Rattle.machine_step.specs.Bounds.{IsValid};
ghost use Rattle.machine_step.specs.Calls.PlanAudit.{is_asked, audit_of, audit_planned, plan_audit};
ghost use Rattle.machine_step.specs.Health.{live_segments, picked};
ghost use Rattle.machine_step.specs.Plans.{has_no_plan};
ghost use Rattle.machine_store.specs.Prepared.{Holds};
ghost use Rattle.machine_store.specs.Store.{tables_of};

use crate::closing::{drawn, has_no_plan};
use audit_core::AuditPlan;
use machine_calls::{RecChange, Refusal, Reply, TableName};
use machine_store::{Prepared, Store, accepted, live_at, live_count, places, refused, table_full};
use sat_base::{At, Items, Moment, NoMemory, Scheme, Serial};
use segment_core::Segment;
use std::alloc::Global;

// The live segment that a word picks.
fn picked(store: &Store, word: u64) -> Option<&Segment>
    ensures { option_copied result ≡ picked (live_segments (tables_of store.now)) word }
{
    let count = live_count(store);
    if count == 0 {
        return None;
    }
    live_at(store, (word % count as u64) as usize)
}

// Whether a piece is asked: a healthy one whose node isn't contained.
fn is_asked(store: &Store, piece: At) -> bool
    ensures { result ≡ is_asked (tables_of store.now) piece }
{
    match store.nodes.get(piece.node) {
        Some(node) => {
            node.counts() && store.containments.get(u128::from(piece.node.0)).is_none()
        }
        None => false,
    }
}

// The pieces of a segment that are asked.
fn asked(alloc: Global, store: &Store, segment: &Segment) -> Result<Items<At>, NoMemory>
    ensures { IfOk result (λ asked. asked ≡ filter (is_asked (tables_of store.now)) segment.now.pieces) }
{
    let asked = segment
        .pieces
        .as_slice()
        .iter()
        .copied()
        .filter(|piece| is_asked(store, *piece))
        .collect(alloc)?;
    Ok(Items::of(asked))
}

// The stripe that a word picks.
fn stripe_of(scheme: &Scheme, len: u64, word: u64) -> u64
    requires some { 1 ≤ len }
    requires few { len ≤ 2 ^ 40 }
    ensures { result ≡ word % stripe_count scheme.now.k scheme.now.share len }
{
    word % scheme.stripes(len)
}

// An audit of a segment; the word picks the stripe.
fn audit_of(
    alloc: Global,
    store: &Store,
    time: Moment,
    segment: &Segment,
    word: u64,
) -> Result<AuditPlan, NoMemory>
    requires some { 1 ≤ segment.now.len }
    requires few { segment.now.len ≤ 2 ^ 40 }
    ensures { IfOk result (λ plan. plan ≡ audit_of (tables_of store.now) time segment.now word) }
{
    Ok(AuditPlan {
        plan: store.marks.plan,
        segment: segment.id,
        version: segment.version,
        stripe: stripe_of(&store.settings.scheme, segment.len, word),
        serial: Serial(store.marks.serial),
        issued: time,
        asked: asked(alloc, store, segment)?,
    })
}

fn audit_planned(
    alloc: Global,
    store: &Store,
    time: Moment,
    plan: AuditPlan,
) -> Result<Prepared, NoMemory>
    requires { has_no_plan store.now.marks ≡ false }
    ensures { IfOk result (λ p. Holds p (audit_planned (tables_of store.now) time plan)) }
{
    let places = places(alloc, &store.nodes, plan.asked.as_slice())?;
    let put = RecChange::AuditPlan(plan.copy(alloc)?);
    let reply = Reply::AuditPlanned { plan, places };
    accepted(alloc, drawn(store, time), put, reply)
}

pub(crate) fn plan_audit(
    alloc: Global,
    store: &Store,
    time: Moment,
    words: &[u64],
) -> Result<Prepared, NoMemory>
    requires valid { IsValid (tables_of store.now) }
    requires words { length words.now ≡ 2 }
    ensures { IfOk result (λ p. Holds p (plan_audit (tables_of store.now) time words.now)) }
{
    let Some(segment) = picked(store, words[0]) else {
        return Ok(refused(alloc, Refusal::NothingToAudit));
    };
    if has_no_plan(&store.marks) {
        return Ok(table_full(alloc, TableName::Numbers));
    }
    let plan = audit_of(alloc, store, time, segment, words[1])?;
    audit_planned(alloc, store, time, plan)
}

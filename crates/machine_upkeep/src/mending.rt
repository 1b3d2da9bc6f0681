// How a repair ends, or the move of a piece of a node that leaves, which is one too.
ghost use Rattle.std.specs.Prelude.{◌≡◌, ◌<◌, ◌^◌, if◌then◌else◌, not, None, option_copied, IfOk, OnOk};
ghost use Rattle.segment_core.specs.Places.{IsByIndex};
ghost use Rattle.machine_step.specs.Mending.{plan_of, is_kept, kept_sources, with_piece, mended_pieces, failed, repair_ended, unrepaired, end_mending};
ghost use Rattle.machine_step.specs.Plans.{same_repair, is_open, open_number};
ghost use Rattle.node_registry.specs.Registry.{node_at};
ghost use Rattle.node_registry.specs.declared.reputation.Outcome.TheVariants.{Fail};
ghost use Rattle.machine_step.specs.Health.{after_outcome};
ghost use Rattle.machine_upkeep.specs.Mended.{CanEnd};
ghost use Rattle.machine_store.specs.Prepared.{Holds};
ghost use Rattle.machine_upkeep.specs.Rated.{AllRated};
ghost use Rattle.machine_store.specs.Store.{tables_of};
ghost use Rattle.segment_core.specs.Commit.{is_among};

use crate::closing::{after_outcome, and_nodes, closing, superseded};
use machine_calls::{RecChange, Refusal, Reply};
use machine_store::{Prepared, Store, refused};
use node_registry::{Node, NodeTable, Outcome};
use repair_core::{Mended, RepairOutcome, RepairPlan, Unmended};
use sat_base::{At, Items, Moment, NoMemory};
use segment_core::Segment;
use std::alloc::Global;

fn plan_of(outcome: &RepairOutcome) -> &RepairPlan
    ensures { result.now ≡ plan_of outcome.now }
{
    match outcome {
        RepairOutcome::Mended(mended) => &mended.plan,
        RepairOutcome::Unmended(unmended) => &unmended.plan,
    }
}

// Whether the open plan is this one.
fn is_open(opened: Option<&RepairPlan>, plan: &RepairPlan) -> bool
    ensures { result ≡ is_open same_repair (option_copied opened.entry) plan.now }
{
    match opened {
        Some(opened) => *opened == *plan,
        None => false,
    }
}

// The number of the open plan, or 0.
fn open_number(opened: Option<&RepairPlan>) -> u64
    ensures { result ≡ open_number (λ plan. plan.plan) (option_copied opened.entry) }
{
    match opened {
        Some(plan) => plan.plan,
        None => 0,
    }
}

// Whether a source is neither altered nor missing.
fn is_kept(mended: &Mended, source: At) -> bool
    ensures { result ≡ is_kept mended.now source }
{
    !mended.blamed.as_slice().contains(&source.index)
        && !mended.missing.as_slice().contains(&source.index)
}

// Puts a piece in its place by index, or in place of the one of its index.
fn put_piece(pieces: &mut Vec<At>, piece: At) -> Result<(), NoMemory>
    ensures { OnOk result (pieces.new.items ≡ with_piece pieces.old.items piece) }
{
    let mut i = 0;
    while i < pieces.len() && pieces[i].index < piece.index {
        i += 1;
    }
    if i < pieces.len() && pieces[i].index == piece.index {
        pieces[i] = piece;
    } else {
        pieces.insert(i, piece)?;
    }
    Ok(())
}

fn kept_sources(alloc: Global, mended: &Mended) -> Result<Vec<At>, NoMemory>
    ensures { IfOk result (λ pieces. pieces.items ≡ kept_sources mended.now) }
{
    let mut kept = Vec::new(alloc);
    for source in mended.plan.sources.as_slice() {
        if is_kept(mended, *source) {
            kept.push(*source)?;
        }
    }
    Ok(kept)
}

// Whether the fresh piece of a target lies in its place.
fn is_placed(mended: &Mended, target: At) -> bool
    ensures { result ≡ is_among mended.now.placed target.index }
{
    mended.placed.as_slice().contains(&target.index)
}

// The pieces of the next version.
fn mended_pieces(alloc: Global, mended: &Mended) -> Result<Vec<At>, NoMemory>
    ensures { IfOk result (λ pieces. pieces.items ≡ mended_pieces mended.now) }
{
    let mut pieces = kept_sources(alloc, mended)?;
    for target in mended.plan.targets.as_slice() {
        if is_placed(mended, *target) {
            put_piece(&mut pieces, *target)?;
        }
    }
    Ok(pieces)
}

// The node of a source after a fail, if it has failed and serves.
fn failed_at(nodes: &NodeTable, has: bool, source: At) -> Option<Node>
    requires { AllRated nodes.now.nodes }
    ensures { result ≡ (if has then after_outcome (node_at nodes.now.nodes source.node) Fail else None) }
{
    if has {
        after_outcome(nodes, source.node, Outcome::Fail)
    } else {
        None
    }
}

// The serving nodes of the sources that aren't kept, each after a fail.
fn failed_of_mended(
    alloc: Global,
    nodes: &NodeTable,
    mended: &Mended,
) -> Result<Vec<Node>, NoMemory>
    requires { AllRated nodes.now.nodes }
    ensures { IfOk result (λ failing. failing.items ≡ failed nodes.now.nodes (λ source. not (is_kept mended.now source)) mended.now.plan.sources) }
{
    Ok(
        mended
            .plan
            .sources
            .as_slice()
            .iter()
            .copied()
            .filter_map(|source| failed_at(nodes, !is_kept(mended, source), source))
            .collect(alloc)?,
    )
}

// The serving nodes of the missing sources, each after a fail.
fn failed_of_unmended(
    alloc: Global,
    nodes: &NodeTable,
    unmended: &Unmended,
) -> Result<Vec<Node>, NoMemory>
    requires { AllRated nodes.now.nodes }
    ensures { IfOk result (λ failing. failing.items ≡ failed nodes.now.nodes (λ source. is_among unmended.now.missing source.index) unmended.now.plan.sources) }
{
    let missing = unmended.missing.as_slice();
    Ok(
        unmended
            .plan
            .sources
            .as_slice()
            .iter()
            .copied()
            .filter_map(|source| failed_at(nodes, missing.contains(&source.index), source))
            .collect(alloc)?,
    )
}

// Fresh pieces were made.
fn repair_ended(
    alloc: Global,
    store: &Store,
    time: Moment,
    kind: u8,
    mended: &Mended,
    found: &Segment,
) -> Result<Prepared, NoMemory>
    requires rated { AllRated store.now.nodes.nodes }
    requires by_index { IsByIndex (mended_pieces mended.now) }
    requires version { found.now.version < 2 ^ 63 }
    ensures { IfOk result (λ p. Holds p (repair_ended (tables_of store.now) time kind mended.now found.now)) }
{
    let version = found.version + 1;
    let nodes = failed_of_mended(alloc, &store.nodes, mended)?;
    let mut changes = closing(alloc, store, time, kind)?;
    changes.push(RecChange::Segment(Segment {
        id: found.id,
        customer: found.customer,
        len: found.len,
        version,
        pieces: Items::of(mended_pieces(alloc, mended)?),
    }))?;
    Ok(Prepared {
        reply: Reply::RepairEnded { version },
        changes: and_nodes(changes, nodes.as_slice())?,
    })
}

// Nothing was made.
fn unrepaired(
    alloc: Global,
    store: &Store,
    time: Moment,
    kind: u8,
    unmended: &Unmended,
) -> Result<Prepared, NoMemory>
    requires { AllRated store.now.nodes.nodes }
    ensures { IfOk result (λ p. Holds p (unrepaired (tables_of store.now) time kind unmended.now)) }
{
    let nodes = failed_of_unmended(alloc, &store.nodes, unmended)?;
    let changes = closing(alloc, store, time, kind)?;
    Ok(Prepared {
        reply: Reply::Unrepaired,
        changes: and_nodes(changes, nodes.as_slice())?,
    })
}

// The open plan of a kind ends.
pub(crate) fn end_mending(
    alloc: Global,
    store: &Store,
    time: Moment,
    kind: u8,
    opened: Option<&RepairPlan>,
    outcome: &RepairOutcome,
) -> Result<Prepared, NoMemory>
    requires rated { AllRated store.now.nodes.nodes }
    requires can { CanEnd (tables_of store.now) (option_copied opened) outcome.now }
    ensures { IfOk result (λ p. Holds p (end_mending (tables_of store.now) time kind (option_copied opened.entry) outcome.now)) }
{
    let plan = plan_of(outcome);
    if !is_open(opened, plan) {
        let kept = open_number(opened);
        return Ok(refused(alloc, Refusal::NoPlan { kept }));
    }
    let planned = plan.version;
    let Some(found) = store.segments.get(plan.segment) else {
        return superseded(alloc, store, time, kind, planned, 0);
    };
    if found.version != planned {
        return superseded(alloc, store, time, kind, planned, found.version);
    }
    match outcome {
        RepairOutcome::Mended(mended) => repair_ended(alloc, store, time, kind, mended, found),
        RepairOutcome::Unmended(unmended) => unrepaired(alloc, store, time, kind, unmended),
    }
}

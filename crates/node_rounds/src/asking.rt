// The nodes of a plan are asked.
ghost use Rattle.std.specs.Prelude.{◌≡◌, ◌≤◌, ◌∷◌, [], IfOk, OnErr, map};
ghost use Rattle.sat_base.specs.Nodes.{AsksSome};
ghost use Rattle.node_asks.specs.Asks.{put_ask};
ghost use Rattle.askable_plans.specs.Askable.{IsAuditable, IsRecheckable, IsRepairable};
ghost use Rattle.node_rounds.specs.Askable.{IsAskable, IsFoundAs, IsMendedAs};
ghost use Rattle.node_rounds.specs.Asked.{Finds, IsAudited, IsGathered, IsRechecked, IsRepaired, IsSpreadOut, NeverFalls, StopsAuditing, StopsRepairing, nodes_view};
ghost use Rattle.node_asks.specs.Telling.{CanSpread};

use crate::kit::RoundStore;
use crate::upkeep::Found;
use audit_core::{AuditPlan, Checked, Judged, RecheckPlan, judge, recheck};
use bw_decode::Scratch;
use machine_calls::Reply;
use node_asks::{Heeded, conclude, hear, hear_one, remake, spread};
use repair_core::{Remade, RepairOutcome, RepairPlan, Unmended};
use sat_base::{Fetched, Indexes, NoMemory, Nodes, Place};
use std::alloc::Global;

// Asks the nodes of an audit, all at once, and judges what they answer.
fn audit<N: Nodes>(
    alloc: Global,
    store: &RoundStore,
    scratch: &mut Scratch,
    nodes: &mut N,
    plan: AuditPlan,
    places: &[Place],
) -> Result<Judged, NoMemory>
    requires auditable { IsAuditable store.now.scheme plan places.now }
    requires room { store.now.scheme.n ≤ scratch.old.points }
    ensures found { IfOk result (λ judged. IsAudited store.now.keys store.now.scheme plan places.now
        (nodes_view N.held N.asks N.faults nodes.old) judged (nodes_view N.held N.asks N.faults nodes.new)) }
    ensures err { OnErr result (StopsAuditing store.now.keys store.now.scheme plan places.now
        (nodes_view N.held N.asks N.faults nodes.old) (nodes_view N.held N.asks N.faults nodes.new)) }
    ensures never { NeverFalls (nodes_view N.held N.asks N.faults nodes.old) (nodes_view N.held N.asks N.faults nodes.new) }
    ensures points { scratch.new.points ≡ scratch.old.points }
{
    let heard = hear(alloc, &store.keys, &store.scheme, nodes, &plan, places)?;
    match judge(alloc, scratch, &store.scheme, plan, heard) {
        Ok(judged) => Ok(judged),
        Err(_) => Err(NoMemory),
    }
}

// Asks the node of a recheck again, and tells whether it passes.
fn check_again<N: Nodes>(
    alloc: Global,
    store: &RoundStore,
    nodes: &mut N,
    plan: &RecheckPlan,
    place: &Place,
) -> Result<Checked, NoMemory>
    requires recheckable { IsRecheckable plan.now place.now }
    ensures found { IfOk result (λ found. IsRechecked store.now.keys store.now.scheme plan.now place.now
        (nodes_view N.held N.asks N.faults nodes.old) found (nodes_view N.held N.asks N.faults nodes.new)) }
    ensures err { OnErr result (nodes_view N.held N.asks N.faults nodes.new ≡ nodes_view N.held N.asks N.faults nodes.old) }
    ensures never { NeverFalls (nodes_view N.held N.asks N.faults nodes.old) (nodes_view N.held N.asks N.faults nodes.new) }
{
    match hear_one(alloc, &store.keys, &store.scheme, nodes, plan, place) {
        Fetched::NoMemory => Err(NoMemory),
        fetched => Ok(recheck(plan, &fetched)),
    }
}

// Puts fresh pieces at the targets of a repair, and tells how it ends.
fn mend<N: Nodes>(
    alloc: Global,
    store: &RoundStore,
    nodes: &mut N,
    plan: RepairPlan,
    targets: &[Place],
    remade: Remade,
    answered: Indexes,
    missing: Indexes,
) -> Result<RepairOutcome, NoMemory>
    requires can { CanSpread store.now.scheme plan targets.now answered missing remade }
    ensures found { IfOk result (λ outcome. IsSpreadOut store.now.keys store.now.scheme plan targets.now
        (record { made = Some remade; answered = answered; missing = missing }) remade
        (nodes_view N.held N.asks N.faults nodes.old) outcome (nodes_view N.held N.asks N.faults nodes.new)) }
    ensures by { IfOk result (IsMendedAs store.now.scheme) }
    ensures err { OnErr result (AsksSome (N.asks nodes.old) (map (put_ask store.now.keys store.now.scheme plan) targets.now) (N.asks nodes.new)) }
    ensures never { NeverFalls (nodes_view N.held N.asks N.faults nodes.old) (nodes_view N.held N.asks N.faults nodes.new) }
{
    let fresh = remade.fresh.as_slice();
    let placed = spread(
        alloc,
        &store.keys,
        &store.scheme,
        nodes,
        &plan,
        targets,
        fresh,
    )?;
    conclude(
        alloc,
        &store.scheme,
        plan,
        &remade.blamed,
        &answered,
        placed,
        missing,
    )
}

// Asks the sources of a repair window by window, makes its fresh pieces, and puts them at their targets.
fn repair<N: Nodes>(
    alloc: Global,
    store: &RoundStore,
    scratch: &mut Scratch,
    nodes: &mut N,
    plan: RepairPlan,
    sources: &[Place],
    targets: &[Place],
) -> Result<RepairOutcome, NoMemory>
    requires repairable { IsRepairable store.now.scheme plan sources.now targets.now }
    requires room { store.now.scheme.n ≤ scratch.old.points }
    ensures found { IfOk result (λ outcome. IsRepaired store.now.keys store.now.scheme plan sources.now targets.now
        (nodes_view N.held N.asks N.faults nodes.old) outcome (nodes_view N.held N.asks N.faults nodes.new)) }
    ensures by { IfOk result (IsMendedAs store.now.scheme) }
    ensures err { OnErr result (StopsRepairing store.now.keys store.now.scheme plan sources.now targets.now
        (nodes_view N.held N.asks N.faults nodes.old) (nodes_view N.held N.asks N.faults nodes.new)) }
    ensures never { NeverFalls (nodes_view N.held N.asks N.faults nodes.old) (nodes_view N.held N.asks N.faults nodes.new) }
    ensures points { scratch.new.points ≡ scratch.old.points }
{
    let heeded = remake(
        alloc,
        &store.keys,
        scratch,
        &store.scheme,
        nodes,
        &plan,
        sources,
    )?;
    let Heeded {
        made,
        answered,
        missing,
    } = heeded;
    match made {
        Some(remade) => mend(
            alloc, store, nodes, plan, targets, remade, answered, missing,
        ),
        None => Ok(RepairOutcome::Unmended(Unmended { plan, missing })),
    }
}

/// Asks the nodes of the plan that a reply holds, and tells what was found. An audit's are asked for their shares, a
/// recheck's once more, and of a repair or a move the sources are asked and fresh pieces put at the targets.
///
/// The decoder's room was made for the scheme. It fails only where memory runs out; then some of the asks may have been made.
pub fn ask<N: Nodes>(
    alloc: Global,
    store: &RoundStore,
    scratch: &mut Scratch,
    nodes: &mut N,
    reply: Reply,
) -> Result<Found, NoMemory>
    requires askable { IsAskable store.now.scheme reply }
    requires room { store.now.scheme.n ≤ scratch.old.points }
    ensures finds { Finds store.now.keys store.now.scheme reply (nodes_view N.held N.asks N.faults nodes.old) result
        (nodes_view N.held N.asks N.faults nodes.new) }
    ensures by { IfOk result (IsFoundAs store.now.scheme) }
    ensures never { NeverFalls (nodes_view N.held N.asks N.faults nodes.old) (nodes_view N.held N.asks N.faults nodes.new) }
    ensures points { scratch.new.points ≡ scratch.old.points }
{
    match reply {
        Reply::RecheckPlanned { plan, place } => {
            match check_again(alloc, store, nodes, &plan, &place) {
                Ok(checked) => Ok(Found::Recheck { plan, checked }),
                Err(wanting) => Err(wanting),
            }
        }
        Reply::AuditPlanned { plan, places } => {
            match audit(alloc, store, scratch, nodes, plan, places.as_slice()) {
                Ok(judged) => Ok(Found::Audit(judged)),
                Err(wanting) => Err(wanting),
            }
        }
        Reply::RepairPlanned {
            plan,
            sources,
            targets,
        } => {
            let (sources, targets) = (sources.as_slice(), targets.as_slice());
            match repair(alloc, store, scratch, nodes, plan, sources, targets) {
                Ok(outcome) => Ok(Found::Repair(outcome)),
                Err(wanting) => Err(wanting),
            }
        }
        Reply::ExitPlanned {
            plan,
            sources,
            target,
        } => {
            let sources = sources.as_slice();
            match repair(alloc, store, scratch, nodes, plan.plan, sources, &[target]) {
                Ok(outcome) => Ok(Found::Exit(outcome)),
                Err(wanting) => Err(wanting),
            }
        }
        _ => unreachable!(),
    }
}

// A node that leaves is picked, and a piece of it: it is to be made afresh elsewhere. Where none is left that could be,
// the node has left.
ghost use Rattle.std.specs.Prelude.{◌≡◌, ◌/◌, ◌≤◌, ◌^◌, false, length, find, IfOk};
ghost use Rattle.std.specs.Option.{option_map};
ghost use Rattle.sat_base.specs.declared.limits.TheConstants as limits;
ghost use Rattle.placement.specs.Placed.{id_of};
ghost use Rattle.machine_step.specs.Bounds.{IsValid};
ghost use Rattle.machine_step.specs.Calls.PlanExit.{lies_on, node_exited, exit_planned, exit_to, plan_exit};
ghost use Rattle.machine_step.specs.Calls.PlanRepair.{terms_beside};
ghost use Rattle.machine_step.specs.Health.{healthy_of, first_of};
ghost use Rattle.machine_step.specs.Places.{picks_of};
ghost use Rattle.machine_step.specs.Plans.{has_no_plan};
ghost use Rattle.machine_store.specs.Prepared.{Holds};
ghost use Rattle.machine_store.specs.Store.{tables_of};

use crate::beside::{beside, repair_of};
use crate::closing::{drawn, has_no_plan};
use machine_calls::{RecChange, Refusal, Reply, TableName};
use machine_store::{
    Prepared, Store, accepted, exiting_at, first_movable, place_at, places, refused, table_full,
};
use node_registry::{Left, Node, Status};
use placement::PlaceErr;
use repair_core::ExitPlan;
use sat_base::{At, Items, Moment, NoMemory, NodeId};
use segment_core::{Segment, healthy};
use std::alloc::Global;

// No piece is left that could be moved.
fn node_exited(
    alloc: Global,
    store: &Store,
    time: Moment,
    node: &Node,
) -> Result<Prepared, NoMemory>
    ensures { IfOk result (λ p. Holds p (node_exited (tables_of store.now) time node.now)) }
{
    let status = Status::Exited;
    let mut changes = Vec::new(alloc);
    changes.push(RecChange::Marks(store.marks_at(time)))?;
    changes.push(RecChange::Node(Node { status, ..*node }))?;
    changes.push(RecChange::Left(Left {
        node: node.id,
        at: time,
    }))?;
    let reply = Reply::Exited { node: node.id };
    Ok(Prepared { reply, changes })
}

// The first piece that lies on a node.
fn piece_on(pieces: &[At], node: NodeId) -> Option<At>
    ensures { result ≡ find (lies_on node) pieces.now }
{
    pieces.iter().copied().find(|piece| piece.node.0 == node.0)
}

// The node for one fresh piece, if a subnet is eligible.
fn node_for(
    alloc: Global,
    store: &Store,
    sources: &[At],
    len: u64,
    words: &[u64],
) -> Result<Option<NodeId>, NoMemory>
    requires valid { IsValid (tables_of store.now) }
    requires len { len ≤ 2 ^ 40 }
    requires words { 1 ≤ length words.now }
    ensures { IfOk result (λ node. node ≡ option_map id_of (first_of (picks_of
        (terms_beside (tables_of store.now) sources.now len words.now) 1 (store.now.settings.fresh / 100)))) }
{
    match beside(alloc, store, sources, len, words, 1) {
        Ok(ids) => Ok(ids.as_slice().first().copied()),
        Err(PlaceErr::Few { .. }) => Ok(None),
        Err(PlaceErr::NoMemory) => Err(NoMemory),
    }
}

fn exit_planned(
    alloc: Global,
    store: &Store,
    time: Moment,
    plan: ExitPlan,
    target: At,
) -> Result<Prepared, NoMemory>
    requires { has_no_plan store.now.marks ≡ false }
    ensures { IfOk result (λ p. Holds p (exit_planned (tables_of store.now) time plan target)) }
{
    let sources = places(alloc, &store.nodes, plan.plan.sources.as_slice())?;
    let target = place_at(&store.nodes, target);
    let put = RecChange::ExitPlan(plan.copy(alloc)?);
    let reply = Reply::ExitPlanned {
        plan,
        sources,
        target,
    };
    accepted(alloc, drawn(store, time), put, reply)
}

// Where the leaving piece goes, where numbers are left.
fn exit_from(
    alloc: Global,
    store: &Store,
    time: Moment,
    words: &[u64],
    segment: &Segment,
    leaving: At,
) -> Result<Prepared, NoMemory>
    requires valid { IsValid (tables_of store.now) }
    requires words { 1 ≤ length words.now }
    requires number { has_no_plan store.now.marks ≡ false }
    requires len { segment.now.len ≤ 2 ^ 40 }
    ensures { IfOk result (λ p. Holds p (exit_to (tables_of store.now) time segment.now
        (healthy_of (tables_of store.now) segment.now) leaving
        (first_of (picks_of (terms_beside (tables_of store.now) (healthy_of (tables_of store.now) segment.now)
        segment.now.len words.now) 1 (store.now.settings.fresh / 100))))) }
{
    let sources = healthy(alloc, segment, &store.nodes)?;
    let Some(node) = node_for(alloc, store, sources.as_slice(), segment.len, words)? else {
        return Ok(refused(alloc, Refusal::Few { chosen: 0 }));
    };
    let target = At {
        index: leaving.index,
        node,
    };
    let mut targets = Vec::new(alloc);
    targets.push(target)?;
    let plan = repair_of(store, time, segment, sources, Items::of(targets));
    exit_planned(alloc, store, time, ExitPlan { leaving, plan }, target)
}

pub(crate) fn plan_exit(
    alloc: Global,
    store: &Store,
    time: Moment,
    words: &[u64],
) -> Result<Prepared, NoMemory>
    requires valid { IsValid (tables_of store.now) }
    requires words { length words.now ≡ limits.WORDS }
    ensures { IfOk result (λ p. Holds p (plan_exit (tables_of store.now) time words.now)) }
{
    let Some(node) = exiting_at(store, words[0]) else {
        return Ok(refused(alloc, Refusal::NothingToExit));
    };
    let Some(segment) = first_movable(store, node.id) else {
        return node_exited(alloc, store, time, node);
    };
    let Some(leaving) = piece_on(segment.pieces.as_slice(), node.id) else {
        return node_exited(alloc, store, time, node);
    };
    if has_no_plan(&store.marks) {
        return Ok(table_full(alloc, TableName::Numbers));
    }
    exit_from(alloc, store, time, &words[1..], segment, leaving)
}

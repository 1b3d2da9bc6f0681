// A repair is planned: of the segment with the fewest healthy pieces among those that need it.
ghost use Rattle.std.specs.Prelude.{◌≡◌, ◌≤◌, ◌^◌, [], false, length, min, IfOk};
ghost use Rattle.sat_base.specs.declared.limits.TheConstants as limits;
ghost use Rattle.machine_step.specs.Bounds.{IsValid};
ghost use Rattle.machine_step.specs.Calls.PlanRepair.{has_index, free_indexes, paired, repair_of, repair_planned, repair_counted, plan_repair};
ghost use Rattle.machine_step.specs.Health.{healthy_of};
ghost use Rattle.machine_step.specs.Plans.{has_no_plan};
ghost use Rattle.machine_store.specs.Prepared.{Holds};
ghost use Rattle.machine_store.specs.Store.{tables_of, GoesByTables};
ghost use Rattle.machine_upkeep.specs.Beside.{ids_beside, subnets_beside, nodes_wanted};

use crate::beside::{beside, repair_of};
use crate::closing::{drawn, has_no_plan};
use machine_calls::{RecChange, Refusal, Reply, TableName};
use machine_store::{Prepared, Store, accepted, places, refused, table_full, to_repair};
use placement::PlaceErr;
use repair_core::RepairPlan;
use sat_base::{At, Items, Moment, NoMemory, NodeId};
use segment_core::{Segment, healthy};
use std::alloc::Global;

// As many nodes as there are subnets to pick in.
fn one_of_each(
    alloc: Global,
    store: &Store,
    sources: &[At],
    len: u64,
    words: &[u64],
    subnets: u8,
) -> Result<Items<NodeId>, NoMemory>
    requires valid { IsValid (tables_of store.now) }
    requires len { len ≤ 2 ^ 40 }
    requires words { subnets ≤ length words.now }
    requires all { subnets ≡ subnets_beside (tables_of store.now) sources.now len words.now }
    ensures { IfOk result (λ ids. ids ≡ ids_beside (tables_of store.now) sources.now len words.now subnets) }
{
    match beside(alloc, store, sources, len, words, subnets) {
        Ok(ids) => Ok(ids),
        Err(PlaceErr::Few { .. }) => unreachable!(),
        Err(PlaceErr::NoMemory) => Err(NoMemory),
    }
}

// As many nodes as wanted, or as there are subnets to pick in.
fn nodes_for(
    alloc: Global,
    store: &Store,
    sources: &[At],
    len: u64,
    words: &[u64],
    wanted: u8,
) -> Result<Items<NodeId>, NoMemory>
    requires valid { IsValid (tables_of store.now) }
    requires len { len ≤ 2 ^ 40 }
    requires words { wanted ≤ length words.now }
    ensures { IfOk result (λ ids. ids ≡ ids_beside (tables_of store.now) sources.now len words.now
        (min wanted (subnets_beside (tables_of store.now) sources.now len words.now))) }
{
    match beside(alloc, store, sources, len, words, wanted) {
        Ok(ids) => Ok(ids),
        Err(PlaceErr::Few { chosen }) => { one_of_each(alloc, store, sources, len, words, chosen) }
        Err(PlaceErr::NoMemory) => Err(NoMemory),
    }
}

// Whether a piece has this index.
fn has_index(pieces: &[At], index: u8) -> bool
    ensures { result ≡ has_index pieces.now index }
{
    pieces.iter().any(|piece| piece.index == index)
}

// The indexes below n that no source has, in pairs with the nodes, in order.
fn targets(alloc: Global, n: u8, sources: &[At], ids: &[NodeId]) -> Result<Items<At>, NoMemory>
    ensures { IfOk result (λ targets. targets ≡ paired (free_indexes n sources.now) ids.now) }
{
    let mut targets = Vec::new(alloc);
    for index in 0..n {
        let next = targets.len();
        if next == ids.len() {
            break;
        }
        if !has_index(sources, index) {
            let node = ids[next];
            targets.push(At { index, node })?;
        }
    }
    Ok(Items::of(targets))
}

fn repair_planned(
    alloc: Global,
    store: &Store,
    time: Moment,
    plan: RepairPlan,
) -> Result<Prepared, NoMemory>
    requires { has_no_plan store.now.marks ≡ false }
    ensures { IfOk result (λ p. Holds p (repair_planned (tables_of store.now) time plan)) }
{
    let sources = places(alloc, &store.nodes, plan.sources.as_slice())?;
    let targets = places(alloc, &store.nodes, plan.targets.as_slice())?;
    let put = RecChange::RepairPlan(plan.copy(alloc)?);
    let reply = Reply::RepairPlanned {
        plan,
        sources,
        targets,
    };
    accepted(alloc, drawn(store, time), put, reply)
}

// A repair of a segment from these sources to these nodes.
fn repair_to(
    alloc: Global,
    store: &Store,
    time: Moment,
    segment: &Segment,
    sources: Items<At>,
    ids: &[NodeId],
) -> Result<Prepared, NoMemory>
    requires { has_no_plan store.now.marks ≡ false }
    ensures { IfOk result (λ p. Holds p (repair_planned (tables_of store.now) time
        (repair_of (tables_of store.now) time segment.now sources
        (paired (free_indexes store.now.settings.scheme.n sources) ids.now)))) }
{
    let n = store.settings.scheme.n;
    let targets = targets(alloc, n, sources.as_slice(), ids)?;
    let plan = repair_of(store, time, segment, sources, targets);
    repair_planned(alloc, store, time, plan)
}

// The repair of a segment, where numbers are left.
fn repair_from(
    alloc: Global,
    store: &Store,
    time: Moment,
    words: &[u64],
    segment: &Segment,
) -> Result<Prepared, NoMemory>
    requires valid { IsValid (tables_of store.now) }
    requires words { length words.now ≡ limits.WORDS }
    requires number { has_no_plan store.now.marks ≡ false }
    requires len { segment.now.len ≤ 2 ^ 40 }
    ensures { IfOk result (λ p. Holds p (repair_counted (tables_of store.now) time words.now segment.now
        (healthy_of (tables_of store.now) segment.now)
        (nodes_wanted (tables_of store.now) words.now segment.now))) }
{
    let sources = healthy(alloc, segment, &store.nodes)?;
    let wanted = (store.settings.scheme.o as usize).saturating_sub(sources.len()) as u8;
    let ids = nodes_for(alloc, store, sources.as_slice(), segment.len, words, wanted)?;
    if ids.is_empty() {
        return Ok(refused(alloc, Refusal::Few { chosen: 0 }));
    }
    repair_to(alloc, store, time, segment, sources, ids.as_slice())
}

pub(crate) fn plan_repair(
    alloc: Global,
    store: &Store,
    time: Moment,
    words: &[u64],
) -> Result<Prepared, NoMemory>
    requires valid { IsValid (tables_of store.now) }
    requires own { GoesByTables store.now }
    requires fresh { store.now.segments.pending ≡ [] }
    requires words { length words.now ≡ limits.WORDS }
    ensures { IfOk result (λ p. Holds p (plan_repair (tables_of store.now) time words.now)) }
{
    let Some(segment) = to_repair(store) else {
        return Ok(refused(alloc, Refusal::NothingToRepair));
    };
    if has_no_plan(&store.marks) {
        return Ok(table_full(alloc, TableName::Numbers));
    }
    repair_from(alloc, store, time, words, segment)
}

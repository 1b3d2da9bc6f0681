// Repairs: where fresh pieces may go beside the sources, and the plan.
ghost use Rattle.std.specs.Prelude.{◌≡◌, ℕ, ◌<◌, ◌≤◌, ◌^◌, length, Err, IfOk, OnOk};
ghost use Rattle.node_registry.specs.Registry.{node_at};
ghost use Rattle.node_registry.specs.Subnet.{subnet_at};
ghost use Rattle.placement.specs.declared.placing.PlaceErr.TheVariants as causes;
ghost use Rattle.machine_step.specs.Bounds.{IsValid};
ghost use Rattle.machine_step.specs.Calls.PlanRepair.{repair_of};
ghost use Rattle.machine_step.specs.Places.{addr_of, subnets_of};
ghost use Rattle.machine_store.specs.Store.{tables_of};
ghost use Rattle.machine_upkeep.specs.Beside.{ids_beside, subnets_beside};

use machine_store::Store;
use node_registry::{NodeTable, subnet};
use placement::{PlaceErr, place};
use repair_core::RepairPlan;
use sat_base::{At, Items, Moment, NoMemory, NodeId, Serial};
use segment_core::Segment;
use std::alloc::Global;

// The subnet of the node that a piece lies on.
fn subnet_of(nodes: &NodeTable, piece: At) -> u32
    ensures { result ≡ subnet_at (addr_of (node_at nodes.now.nodes piece.node)) }
{
    match nodes.get(piece.node) {
        Some(node) => subnet(node.addr),
        None => subnet(0),
    }
}

// The subnets of the nodes that pieces lie on.
fn subnets_of(alloc: Global, nodes: &NodeTable, pieces: &[At]) -> Result<Vec<u32>, NoMemory>
    ensures { IfOk result (λ subnets. subnets.items ≡ subnets_of nodes.now.nodes pieces.now) }
{
    Ok(
        pieces
            .iter()
            .copied()
            .map(|piece| subnet_of(nodes, piece))
            .collect(alloc)?,
    )
}

// The nodes for so many fresh pieces of a segment of `len` bytes, in no subnet of the sources.
pub(crate) fn beside(
    alloc: Global,
    store: &Store,
    sources: &[At],
    len: u64,
    words: &[u64],
    need: u8,
) -> Result<Items<NodeId>, PlaceErr>
    requires valid { IsValid (tables_of store.now) }
    requires len { len ≤ 2 ^ 40 }
    requires words { need ≤ length words.now }
    ensures ids { IfOk result (λ ids. ids
        ≡ ids_beside (tables_of store.now) sources.now len words.now need) }
    ensures enough { OnOk result
        (need ≤ subnets_beside (tables_of store.now) sources.now len words.now) }
    ensures few { (chosen : ℕ) → result ≡ Err (causes.Few chosen)
        → chosen ≡ subnets_beside (tables_of store.now) sources.now len words.now }
    ensures wanting { (chosen : ℕ) → result ≡ Err (causes.Few chosen) → chosen < need }
{
    let settings = &store.settings;
    let fresh = (need as u32 * settings.fresh as u32 / 100) as u8;
    let taken = subnets_of(alloc, &store.nodes, sources)?;
    let piece_len = settings.scheme.piece_len(len);
    place(
        alloc,
        &store.nodes,
        settings.vet,
        need,
        fresh,
        taken.as_slice(),
        piece_len,
        words,
    )
}

// A repair from these sources to these targets.
pub(crate) fn repair_of(
    store: &Store,
    time: Moment,
    segment: &Segment,
    sources: Items<At>,
    targets: Items<At>,
) -> RepairPlan
    ensures { result ≡ repair_of (tables_of store.now) time segment.now sources targets }
{
    RepairPlan {
        plan: store.marks.plan,
        segment: segment.id,
        version: segment.version,
        serial: Serial(store.marks.serial),
        issued: time,
        len: segment.len,
        sources,
        targets,
    }
}

// What calls look for in the tables.
ghost use Rattle.std.specs.Prelude.{◌≡◌, ◌≤◌, [], length, filter, slice_get, option_copied, IfOk};
ghost use Rattle.segment_core.specs.Health.{is_healthy};
ghost use Rattle.month_sums.specs.Closing.{GoByPots};
ghost use Rattle.machine_step.specs.Bounds.{IsValid};
ghost use Rattle.machine_step.specs.Calls.PlanExit.{is_exiting, exiting_nodes, is_movable};
ghost use Rattle.machine_step.specs.Calls.PlanRepair.{to_repair};
ghost use Rattle.machine_step.specs.Health.{first_of, live_segments, picked};
ghost use Rattle.machine_step.specs.PlanRules.{is_exited};
ghost use Rattle.machine_step.specs.Stored.{stored_bytes};
ghost use Rattle.machine_step.specs.Tables.{ledger_of};
ghost use Rattle.machine_store.specs.Store.{tables_of, GoesByTables};

use crate::store::Store;
use node_registry::{Node, NodeTable, Status};
use pay_tables::kept_pots_go_by_a_ledger;
use sat_base::{At, NoMemory, NodeId};
use segment_core::Segment;
use std::alloc::Global;

// How many segments are live.
pub fn live_count(store: &Store) -> usize
    ensures { result ≡ length (live_segments (tables_of store.now)) }
{
    store.segments.live_len()
}

// The live segment at a place, counted from 0 in the order of ids.
pub fn live_at(store: &Store, place: usize) -> Option<&Segment>
    ensures { option_copied result ≡ slice_get (live_segments (tables_of store.now)) place }
{
    store.segments.live_at(place)
}

// The segment to repair.
pub fn to_repair(store: &Store) -> Option<&Segment>
    requires valid { IsValid (tables_of store.now) }
    requires own { GoesByTables store.now }
    requires fresh { store.now.segments.pending ≡ [] }
    ensures { option_copied result ≡ to_repair (tables_of store.now) }
{
    store.segments.least()
}

// Whether a piece is healthy.
fn is_healthy(nodes: &NodeTable, piece: At) -> bool
    ensures { result ≡ is_healthy nodes.now.nodes piece }
{
    match nodes.get(piece.node) {
        Some(node) => node.counts(),
        None => false,
    }
}

// How many pieces are healthy.
fn count_healthy(nodes: &NodeTable, pieces: &[At]) -> usize
    ensures { result ≡ length (filter (is_healthy nodes.now.nodes) pieces.now) }
{
    let healthy = pieces.iter().filter(|piece| is_healthy(nodes, **piece));
    healthy.count()
}

// The first segment that has a piece at a node and can be rebuilt.
pub fn first_movable(store: &Store, node: NodeId) -> Option<&Segment>
    requires valid { IsValid (tables_of store.now) }
    ensures { option_copied result ≡ first_of (filter (is_movable (tables_of store.now) node) (tables_of store.now).segments) }
{
    let mut found = store.segments.first_at(node);
    while let Some(segment) = found {
        let healthy = count_healthy(&store.nodes, segment.pieces.as_slice());
        if usize::from(store.settings.scheme.k) <= healthy {
            return Some(segment);
        }
        found = store.segments.next_at(node, segment.id);
    }
    None
}

fn is_exiting(node: &Node) -> bool
    ensures { result ≡ is_exiting node.now.status }
{
    matches!(node.status, Status::Exiting)
}

// How many of the nodes leave.
fn exiting_count(nodes: &[Node]) -> usize
    ensures { result ≡ length (filter (λ node. is_exiting node.status) nodes.now) }
{
    nodes.iter().filter(|node| is_exiting(node)).count()
}

// The node at a place among those that leave.
fn exiting_nth(nodes: &[Node], place: usize) -> Option<&Node>
    ensures { option_copied result ≡ slice_get (filter (λ node. is_exiting node.status) nodes.now) place }
{
    let mut ahead = place;
    for node in nodes {
        if is_exiting(node) {
            if ahead == 0 {
                return Some(node);
            }
            ahead -= 1;
        }
    }
    None
}

// The node that a word picks among those that leave.
pub fn exiting_at(store: &Store, word: u64) -> Option<&Node>
    ensures { option_copied result ≡ picked (exiting_nodes (tables_of store.now)) word }
{
    let nodes = store.nodes.nodes();
    let count = exiting_count(nodes);
    if count == 0 {
        return None;
    }
    exiting_nth(nodes, (word % count as u64) as usize)
}

fn has_exited(node: &Node) -> bool
    ensures { result ≡ is_exited node.now.status }
{
    matches!(node.status, Status::Exited)
}

// The bytes that a node stores.
pub fn stored_at(store: &Store, node: &Node) -> u128
    requires { GoesByTables store.now }
    ensures { result ≡ stored_bytes (tables_of store.now).setup (tables_of store.now).segments node.now }
{
    if has_exited(node) {
        0
    } else {
        store.pay.stored_at(node.id)
    }
}

// What is held of each node, in micro-dollars.
pub fn pots_of(alloc: Global, store: &Store) -> Result<Vec<u128>, NoMemory>
    requires valid { IsValid (tables_of store.now) }
    requires own { GoesByTables store.now }
    ensures { IfOk result (λ pots. GoByPots (ledger_of (tables_of store.now)) pots.items) }
{
    kept_pots_go_by_a_ledger();
    let pots = store.pay.pots_of(alloc, store.nodes.nodes())?;
    Ok(pots)
}

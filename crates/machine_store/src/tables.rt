// Single tables are made of records.
ghost use Rattle.std.specs.Prelude.{◌≡◌, ◌≤◌, [], length, IfOk};
ghost use Rattle.sat_base.specs.declared.limits.TheConstants as limits;
ghost use Rattle.rows.specs.Rows.{IsRising};
ghost use Rattle.node_registry.specs.Registry.{IsNumbered};
ghost use Rattle.segment_core.specs.Record.{segment_rank};
ghost use Rattle.settlement.specs.Rows.{key};
ghost use Rattle.machine_store.specs.Store.{limits_of, lost_ids, KnowsLost};

use node_registry::{Node, NodeTable};
use sat_base::{NoMemory, NodeId, Settings};
use segment_core::Segment;
use segment_index::{Limits, SegmentIndex};
use settlement::{Settled, SettledRow};
use std::alloc::Global;

// A table of these nodes.
pub(crate) fn node_table(alloc: Global, nodes: Vec<Node>) -> Result<NodeTable, NoMemory>
    requires numbered { IsNumbered nodes.items }
    requires within { length nodes.items ≤ limits.NODES }
    ensures nodes { IfOk result (λ table. table.nodes ≡ nodes.items) }
{
    let mut table = NodeTable::new(alloc);
    for node in nodes {
        if table.add(node).is_err() {
            return Err(NoMemory);
        }
    }
    Ok(table)
}

// A table of these settled orders, which will have at most `cap`.
pub(crate) fn settled_table(
    alloc: Global,
    cap: u32,
    rows: Vec<SettledRow>,
) -> Result<Settled, NoMemory>
    requires rising { IsRising key rows.items }
    requires within { length rows.items ≤ cap }
    ensures rows { IfOk result (λ table. table.rows ≡ rows.items) }
    ensures cap { IfOk result (λ table. table.cap ≡ cap) }
{
    let mut table = Settled::new(alloc, cap);
    for row in rows {
        table.reserve()?;
        table.add(row);
    }
    Ok(table)
}

// With how many healthy pieces a segment needs repair.
fn limits_of(settings: &Settings) -> Limits
    ensures { result ≡ limits_of settings.now }
{
    Limits {
        k: settings.scheme.k,
        m: settings.scheme.m,
    }
}

// The nodes whose pieces don't count.
fn lost_nodes(alloc: Global, nodes: &[Node]) -> Result<Vec<NodeId>, NoMemory>
    ensures { IfOk result (λ gone. gone.items ≡ lost_ids nodes.now) }
{
    let gone = nodes
        .iter()
        .filter(|node| !node.counts())
        .map(|node| node.id)
        .collect(alloc)?;
    Ok(gone)
}

// An index of these segments, which knows the nodes whose pieces don't count.
pub(crate) fn index_of(
    alloc: Global,
    settings: &Settings,
    nodes: &NodeTable,
    segments: Vec<Segment>,
) -> Result<SegmentIndex, NoMemory>
    requires { IsRising segment_rank segments.items }
    ensures rows { IfOk result (λ index. index.rows ≡ segments.items) }
    ensures limits { IfOk result (λ index. index.limits ≡ limits_of settings.now) }
    ensures pending { IfOk result (λ index. index.pending ≡ []) }
    ensures lost { IfOk result (λ index. KnowsLost nodes.now.nodes index) }
{
    let gone = lost_nodes(alloc, nodes.nodes())?;
    let limits = limits_of(settings);
    let index = SegmentIndex::of(alloc, limits, segments, gone.as_slice())?;
    Ok(index)
}

// The operator adds a node.
ghost use Rattle.std.specs.Prelude.{IfOk};
ghost use Rattle.machine_step.specs.Calls.AddNode.{add_node};
ghost use Rattle.machine_store.specs.Prepared.{Holds};
ghost use Rattle.machine_store.specs.Store.{tables_of};

use crate::answers::caller_answer;
use machine_calls::{Asking, RecChange, TableName};
use machine_store::{Prepared, Store, done_with, table_full};
use node_registry::Node;
use sat_base::{Asked, Done, NoMemory, NodeId};
use std::alloc::Global;

pub(crate) fn add_node(
    alloc: Global,
    store: &Store,
    asking: &Asking,
    addr: u32,
    port: u16,
    free: u64,
) -> Result<Prepared, NoMemory>
    ensures { IfOk result (λ p. Holds p (add_node (tables_of store.now) asking.now addr port free)) }
{
    let asked = Asked::Node { addr, port, free };
    let answer = caller_answer(alloc, store, asking, &asked)?;
    if let Some(answer) = answer {
        return Ok(answer);
    }
    let count = store.nodes.len();
    if count >= store.settings.caps.nodes as usize {
        return Ok(table_full(alloc, TableName::Nodes));
    }
    let node = Node::joining(NodeId(count as u32 + 1), addr, port, free, asking.time);
    let done = Done::NodeAdded { node: node.id };
    let put = Some(RecChange::Node(node));
    done_with(alloc, store.marks_at(asking.time), put, asking, asked, done)
}

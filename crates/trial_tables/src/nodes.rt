// A table of nodes.
ghost use Rattle.std.specs.Prelude.{◌≡◌};

use node_registry::{AddErr, Node, NodeTable, Status, subnet};
use sat_base::{Moment, NodeId};
use std::alloc::Global;

fn node(id: u32, port: u16) -> Node
    ensures { result.id.0 ≡ id }
{
    Node::joining(NodeId(id), 0xc000_0207, port, 1 << 40, Moment::of(5))
}

// Adds the next node.
fn add(table: &mut NodeTable, port: u16) -> Result<(), AddErr> {
    let id = table.len() as u32 + 1;
    table.add(node(id, port))
}

// Sets the port of a node, if it is there.
fn set(table: &mut NodeTable, id: u32, port: u16) {
    match table.get(NodeId(id)) {
        Some(_) => table.set(node(id, port)),
        None => {}
    }
}

fn port(table: &NodeTable, id: u32) -> Option<u16> {
    table.get(NodeId(id)).map(|node| node.port)
}

// The ports at the ids from 0 to 4.
fn ports(table: &NodeTable) -> [Option<u16>; 5] {
    [
        port(table, 0),
        port(table, 1),
        port(table, 2),
        port(table, 3),
        port(table, 4),
    ]
}

// Three nodes, one of them with another port later.
fn fill(table: &mut NodeTable) -> Result<(), AddErr> {
    if table.reserve(2).is_err() {
        return Err(AddErr::NoMemory);
    }
    for port in [10, 20, 30] {
        add(table, port)?;
    }
    set(table, 2, 25);
    Ok(())
}

#[derive(Clone, Copy, PartialEq, Eq)]
struct Kept {
    ports: [Option<u16>; 5],
    // How many nodes there are, by both counts.
    counts: [usize; 2],
}

fn keep_all(alloc: Global) -> Result<Kept, AddErr> {
    let mut table = NodeTable::new(alloc);
    fill(&mut table)?;
    Ok(Kept {
        ports: ports(&table),
        counts: [table.len(), table.nodes().len()],
    })
}

#[test]
fn keeps_nodes(rt: HostRuntime) {
    let want = Kept {
        ports: [None, Some(10), Some(25), Some(30), None],
        counts: [3, 3],
    };
    assert!(rt; keep_all(rt.alloc()) == Ok(want));
    assert!(rt; subnet(0xc000_0207) == 0xc0_0002);
}

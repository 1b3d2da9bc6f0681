ghost use Rattle.std.specs.Prelude.{◌≡◌, ◌+◌, ◌-◌, ◌<◌, ◌≤◌, ◌↔◌, ◌++◌, ◌∷◌, ℕ, [], length, Err, IsSome, IfSome, IsOk, OnOk, OnErr, is_ok, if◌then◌else◌, option_copied, vec_capacity, vec_len};
ghost use Rattle.sat_base.specs.declared.limits.TheConstants as limits;
ghost use Rattle.node_registry.specs.Registry.{Nodes, node_at, with_node, IsNumbered, IsKept};

use crate::node::Node;
use sat_base::{NoMemory, NodeId, limits};
use std::alloc::Global;
use std::marker::Model;

/// Why a node isn't added.
#[derive(Clone, Copy, Debug, PartialEq, Eq)]
pub enum AddErr {
    /// The nodes number the cap, this one.
    Full { cap: u32 },
    /// There is no memory for the node.
    NoMemory,
}

/// The nodes, whose ids are 1 to their number.
///
/// Contracts see the nodes by id, and for how many more there is room. A node is looked up in one step.
pub struct NodeTable {
    nodes: Vec<Node>,
}

// By hand, so that it is taken apart here, and not anew wherever one is let go.
impl Drop for NodeTable {
    fn drop(self) {
        let NodeTable { nodes: _ } = self;
    }
}

impl Model for NodeTable {
    ghost Value = { Nodes };

    ghost view = { λ t. record { nodes = t.nodes.items; spare_nodes = vec_capacity t.nodes - vec_len t.nodes } };

    ghost invariant = { λ t. IsKept t.nodes.items };
}

impl NodeTable {
    /// No nodes.
    pub fn new(alloc: Global) -> Self
        ensures nodes { result.nodes ≡ [] }
    {
        NodeTable {
            nodes: Vec::new(alloc),
        }
    }

    /// How many nodes there are.
    pub fn len(&self) -> usize
        ensures len { result ≡ length self.now.nodes }
        ensures within { result ≤ limits.NODES }
    {
        self.nodes.len()
    }

    /// The nodes, by id.
    pub fn nodes(&self) -> &[Node]
        ensures nodes { result.now ≡ self.now.nodes }
        ensures numbered { IsNumbered self.now.nodes }
    {
        self.nodes.as_slice()
    }

    /// Makes room for so many more nodes. Running out of memory leaves them as they were.
    pub fn reserve(&mut self, nodes: u32) -> Result<(), NoMemory>
        ensures room { OnOk result (nodes ≤ self.new.spare_nodes) }
        ensures nodes { self.new.nodes ≡ self.old.nodes }
        ensures spare_nodes { self.old.spare_nodes ≤ self.new.spare_nodes }

        // Where there is room already, it takes no memory.
        ensures succeeds { nodes ≤ self.old.spare_nodes → IsOk result }
    {
        self.nodes.reserve(nodes as usize)?;
        Ok(())
    }

    /// Adds a node, whose id is the next one. An error leaves the table as it was.
    pub fn add(&mut self, node: Node) -> Result<(), AddErr>
        requires { node.id.0 ≡ length self.old.nodes + 1 }
        ensures nodes { self.new.nodes
            ≡ (if is_ok result then self.old.nodes ++ node ∷ [] else self.old.nodes) }
        ensures full { (result ≡ Err (AddErr.Full limits.NODES)) ↔ (length self.old.nodes ≡ limits.NODES) }
        ensures cap { (cap : ℕ) → result ≡ Err (AddErr.Full cap) → cap ≡ limits.NODES }

        // Where there is room, it takes no memory.
        ensures room { 0 < self.old.spare_nodes → length self.old.nodes < limits.NODES → IsOk result }
        ensures spare_nodes { OnOk result (0 < self.old.spare_nodes
            → self.new.spare_nodes + 1 ≡ self.old.spare_nodes) }
        ensures err { OnErr result (self.new ≡ self.old) }
    {
        if self.nodes.len() == limits::NODES as usize {
            return Err(AddErr::Full { cap: limits::NODES });
        }
        if make_room(&mut self.nodes).is_err() {
            return Err(AddErr::NoMemory);
        }
        self.nodes.push_reserved(node);
        Ok(())
    }

    /// The node of an id.
    pub fn get(&self, id: NodeId) -> Option<&Node>
        ensures node { option_copied result ≡ node_at self.now.nodes id }
        ensures own { IfSome result (λ node. node.now.id ≡ id) }
    {
        let nodes = self.nodes();
        if id.0 == 0 {
            return None;
        }
        nodes.get(id.0 as usize - 1)
    }

    // Where the node of an id stands, which is there.
    fn place(&self, id: NodeId) -> usize
        requires { IsSome (node_at self.now.nodes id) }
        ensures place { result + 1 ≡ id.0 }
        ensures within { result < length self.now.nodes }
    {
        let _nodes = self.nodes();
        id.0 as usize - 1
    }

    /// Puts a node in place of the one of its id. It takes no memory.
    pub fn set(&mut self, node: Node)
        requires { IsSome (node_at self.old.nodes node.id) }
        ensures nodes { self.new.nodes ≡ with_node node self.old.nodes }
        ensures spare_nodes { self.new.spare_nodes ≡ self.old.spare_nodes }
    {
        let at = self.place(node.id);
        self.nodes[at] = node;
    }
}

// Room for one more node. It takes memory only where there is none.
fn make_room(nodes: &mut Vec<Node>) -> Result<(), NoMemory>
    ensures items { nodes.new.items ≡ nodes.old.items }
    ensures ok { OnOk result (vec_len nodes.new < vec_capacity nodes.new) }
    ensures succeeds { vec_len nodes.old < vec_capacity nodes.old → IsOk result }
    ensures kept { vec_len nodes.old < vec_capacity nodes.old
        → vec_capacity nodes.new ≡ vec_capacity nodes.old }
    ensures err { OnErr result (vec_capacity nodes.new ≡ vec_capacity nodes.old) }
{
    if nodes.len() == nodes.capacity() {
        nodes.reserve(1)?;
    }
    Ok(())
}

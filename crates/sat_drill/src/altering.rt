// Storage nodes some of which alter what they are given.
ghost use Rattle.std.specs.Prelude.{None};

use crate::uploads::Uploads;
use sat_base::{Ask, Fetched, MemNodes, NoMemory, NodeId, Nodes, Stored};
use std::alloc::Global;

/// Storage nodes in memory, of which some keep other bytes than they are given. They tell no content. What was uploaded
/// to them is noted, so that the pieces that are put later are compared with it.
#[derive(Drop)]
pub struct Altering {
    nodes: MemNodes,
    pub uploads: Uploads,
}

impl Altering {
    /// Nodes that hold nothing.
    pub fn new(alloc: Global, uploads: Uploads) -> Self {
        let nodes = MemNodes::of(alloc, Vec::new(alloc), Vec::new(alloc));
        Altering { nodes, uploads }
    }
}

// Whether a node alters what it is given.
fn alters(node: NodeId) -> bool {
    matches!(node.0, 3 | 6 | 9)
}

// Bytes that differ from these at each place.
fn altered(alloc: Global, bytes: &[u8]) -> Result<Vec<u8>, NoMemory> {
    Ok(bytes.iter().map(|byte| *byte ^ 1).collect(alloc)?)
}

impl Nodes for Altering {
    ghost held = { λ _. None };

    ghost asks = { λ _. None };

    ghost faults = { λ n. n.nodes.faults };

    fn fetch(&mut self, alloc: Global, ask: &Ask) -> Fetched {
        self.nodes.fetch(alloc, ask)
    }

    fn put(&mut self, alloc: Global, ask: &Ask, bytes: &[u8]) -> Stored {
        if self.uploads.compare(alloc, ask, bytes).is_err() {
            return Stored::NoMemory;
        }
        if !alters(ask.node) {
            return self.nodes.put(alloc, ask, bytes);
        }
        match altered(alloc, bytes) {
            Ok(other) => self.nodes.put(alloc, ask, &other),
            Err(_) => Stored::NoMemory,
        }
    }
}

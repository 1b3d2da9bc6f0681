// The places of pieces.
ghost use Rattle.std.specs.Prelude.{◌≡◌, ◌≤◌, length, IfOk};
ghost use Rattle.machine_step.specs.Places.{pieces_from, place_at, places_of};
ghost use Rattle.sat_base.specs.declared.limits.TheConstants as limits;

use node_registry::NodeTable;
use sat_base::{At, Items, NoMemory, NodeId, Place};
use std::alloc::Global;

// Pieces at these nodes, their indexes counted up from 0.
pub fn pieces(alloc: Global, ids: &[NodeId]) -> Result<Vec<At>, NoMemory>
    requires { length ids.now ≤ limits.PLACES }
    ensures { IfOk result (λ pieces. pieces.items ≡ pieces_from 0 ids.now) }
{
    let mut pieces = Vec::with_capacity(alloc, ids.len())?;
    for (i, node) in ids.iter().enumerate() {
        pieces.push(At {
            index: i as u8,
            node: *node,
        })?;
    }
    Ok(pieces)
}

// Where a piece is found.
pub fn place_at(nodes: &NodeTable, piece: At) -> Place
    ensures { result ≡ place_at nodes.now.nodes piece }
{
    let (addr, port) = match nodes.get(piece.node) {
        Some(node) => (node.addr, node.port),
        None => (0, 0),
    };
    Place {
        index: piece.index,
        node: piece.node,
        addr,
        port,
    }
}

// Where pieces are found.
pub fn places(alloc: Global, nodes: &NodeTable, pieces: &[At]) -> Result<Items<Place>, NoMemory>
    ensures { IfOk result (λ places. places ≡ places_of nodes.now.nodes pieces.now) }
{
    let places = pieces
        .iter()
        .copied()
        .map(|piece| place_at(nodes, piece))
        .collect(alloc)?;
    Ok(Items::of(places))
}

// Pieces, and the nodes that they lie on.
ghost use Rattle.std.specs.Prelude.{◌≡◌, ◌==◌, ◌++◌, not};
ghost use Rattle.std.specs.List.{list_any, list_all};
ghost use Rattle.machine_step.specs.Places.{addr_of, subnets_of};
ghost use Rattle.machine_step.specs.Containment.{has_piece};
ghost use Rattle.machine_step.specs.Health.{are_among};
ghost use Rattle.machine_step.specs.Calls.PlanRepair.{has_index};
ghost use Rattle.machine_step.specs.PlanRules.{are_new, shares_subnet};
ghost use Rattle.machine_step.specs.Rules.{are_known, are_apart, are_below};
ghost use Rattle.node_registry.specs.Registry.{node_at};
ghost use Rattle.node_registry.specs.Subnet.{subnet_at};

use crate::known::is_known;
use node_registry::{NodeTable, subnet};
use sat_base::{At, NodeId};

// The subnet of a node, which is 0 where there is no such node.
pub(crate) fn subnet_of(nodes: &NodeTable, id: NodeId) -> u32
    ensures { result ≡ subnet_at (addr_of (node_at nodes.now.nodes id)) }
{
    match nodes.get(id) {
        Some(node) => subnet(node.addr),
        None => 0,
    }
}

// Whether one of the pieces lies in a subnet.
fn is_one_in(nodes: &NodeTable, pieces: &[At], subnet: u32) -> bool
    ensures { result ≡ list_any (λ piece. subnet == subnet_at (addr_of (node_at nodes.now.nodes piece.node))) pieces.now }
{
    pieces
        .iter()
        .any(|piece| subnet == subnet_of(nodes, piece.node))
}

// Whether no two pieces lie in one subnet.
pub(crate) fn are_apart(nodes: &NodeTable, pieces: &[At]) -> bool
    ensures { result ≡ are_apart (subnets_of nodes.now.nodes pieces.now) }
{
    for (i, piece) in pieces.iter().enumerate() {
        if is_one_in(nodes, &pieces[i + 1..], subnet_of(nodes, piece.node)) {
            return false;
        }
    }
    true
}

pub(crate) fn are_known(nodes: &NodeTable, pieces: &[At]) -> bool
    ensures { result ≡ are_known nodes.now.nodes pieces.now }
{
    pieces.iter().all(|piece| is_known(nodes, piece.node))
}

pub(crate) fn are_below(n: u8, pieces: &[At]) -> bool
    ensures { result ≡ are_below n pieces.now }
{
    pieces.iter().all(|piece| piece.index < n)
}

// Whether a place lies in the subnet of one of these.
pub(crate) fn shares_subnet(nodes: &NodeTable, place: At, others: &[At]) -> bool
    ensures { result ≡ shares_subnet nodes.now.nodes place others.now }
{
    is_one_in(nodes, others, subnet_of(nodes, place.node))
}

// Whether no piece lies in a subnet of the others.
fn are_off(nodes: &NodeTable, pieces: &[At], others: &[At]) -> bool
    ensures { result ≡ list_all (λ piece. not (shares_subnet nodes.now.nodes piece others.now)) pieces.now }
{
    pieces
        .iter()
        .all(|piece| !shares_subnet(nodes, *piece, others))
}

// Whether no two pieces of the two lists together lie in one subnet.
pub(crate) fn are_apart_together(nodes: &NodeTable, pieces: &[At], others: &[At]) -> bool
    ensures { result ≡ are_apart (subnets_of nodes.now.nodes (pieces.now ++ others.now)) }
{
    are_apart(nodes, pieces) && are_apart(nodes, others) && are_off(nodes, pieces, others)
}

// Whether a place is one of the pieces.
pub(crate) fn has_piece(pieces: &[At], place: At) -> bool
    ensures { result ≡ has_piece pieces.now place }
{
    pieces.iter().any(|piece| piece.index == place.index && piece.node.0 == place.node.0)
}

// Whether each place is one of the pieces.
pub(crate) fn are_among(pieces: &[At], places: &[At]) -> bool
    ensures { result ≡ are_among pieces.now places.now }
{
    places.iter().all(|place| has_piece(pieces, *place))
}

// Whether one of the pieces has an index.
fn has_index(pieces: &[At], index: u8) -> bool
    ensures { result ≡ has_index pieces.now index }
{
    pieces.iter().any(|piece| piece.index == index)
}

// Whether no place has an index of the pieces.
pub(crate) fn are_new(pieces: &[At], places: &[At]) -> bool
    ensures { result ≡ are_new pieces.now places.now }
{
    places.iter().all(|place| !has_index(pieces, place.index))
}

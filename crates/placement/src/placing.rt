ghost use Rattle.std.specs.Prelude.{◌≡◌, ℕ, ◌<◌, ◌≤◌, Err, IfOk, OnOk, length, map};
ghost use Rattle.placement.specs.Eligible.{terms, subnet_count};
ghost use Rattle.placement.specs.Draft.{terms_of};
ghost use Rattle.placement.specs.Placed.{ArePicks, id_of, IsPlaced, IsSpread};

use crate::draft::Draft;
use crate::request::{Class, Request};
use node_registry::{Node, NodeTable};
use sat_base::{Items, NoMemory, NodeId};
use std::alloc::Global;

/// Why no nodes are picked.
#[derive(Clone, Copy, Debug, PartialEq, Eq)]
pub enum PlaceErr {
    /// The eligible nodes are in too few subnets, so many.
    Few { chosen: u8 },
    /// There is no memory for the picks.
    NoMemory,
}

impl From<NoMemory> for PlaceErr {
    ghost use Rattle.placement.specs.declared.placing.PlaceErr.{PlaceErr};

    ghost from_gives = { λ _ err. err ≡ PlaceErr.NoMemory };

    fn from(_: NoMemory) -> Self {
        PlaceErr::NoMemory
    }
}

// The picks of the four phases.
fn picks(
    alloc: Global,
    request: &Request<'_>,
    need: usize,
    fresh: usize,
) -> Result<Vec<Node>, NoMemory>
    requires fresh { fresh ≤ need }
    requires words { need ≤ length request.now.words.now }
    ensures { IfOk result (λ picks. ArePicks (terms_of request.now) need fresh picks.items) }
{
    let mut draft = Draft::new(alloc, request)?;
    draft.pick_up_to(request, Class::Vetted, need - fresh)?;
    draft.pick_up_to(request, Class::Unvetted, fresh)?;
    let wanted = need - draft.picks.len();
    draft.pick_up_to(request, Class::Vetted, wanted)?;
    let wanted = need - draft.picks.len();
    draft.pick_up_to(request, Class::Unvetted, wanted)?;
    Ok(draft.picks)
}

// The nodes' ids.
fn ids(alloc: Global, nodes: &[Node]) -> Result<Vec<NodeId>, NoMemory>
    ensures { IfOk result (λ ids. ids.items ≡ map id_of nodes.now) }
{
    Ok(nodes.iter().map(|node| node.id).collect(alloc)?)
}

/// Picks `need` nodes for the pieces of a segment, of which `fresh` are to be nodes that aren't vetted yet.
///
/// A node is eligible where it is active, has `piece_len` bytes free and is in none of the subnets `taken`,
/// nor in that of an earlier pick. It is vetted from `vet` passed audits on. The picks come in four phases:
/// `need - fresh` of the vetted; `fresh` of the others; what is still wanted, of the vetted; what is still
/// wanted, of the others. A phase ends early where its class has no eligible node left. Pick j takes, of the
/// c eligible nodes of its class by id, the one at the place `words[j] mod c`.
///
/// It passes over the nodes once. Then a pick looks at the nodes of its subnet, with those that share a bucket
/// of subnets, at one block of 256 nodes, and at a count for each block.
///
/// # Errors
/// `Few` where the eligible nodes are in fewer subnets than `need`; `chosen` is the number of these.
pub fn place(
    alloc: Global,
    table: &NodeTable,
    vet: u16,
    need: u8,
    fresh: u8,
    taken: &[u32],
    piece_len: u64,
    words: &[u64],
) -> Result<Items<NodeId>, PlaceErr>
    requires fresh { fresh ≤ need }
    requires words { need ≤ length words.now }
    ensures placed { IfOk result (λ ids.
        IsPlaced (terms table.now.nodes vet taken.now piece_len words.now) need fresh ids) }
    ensures spread { IfOk result (λ ids.
        IsSpread (terms table.now.nodes vet taken.now piece_len words.now) need ids) }
    ensures enough { OnOk result
        (need ≤ subnet_count (terms table.now.nodes vet taken.now piece_len words.now)) }
    ensures few { (chosen : ℕ) → result ≡ Err (PlaceErr.Few chosen)
        → chosen ≡ subnet_count (terms table.now.nodes vet taken.now piece_len words.now) }
    ensures wanting { (chosen : ℕ) → result ≡ Err (PlaceErr.Few chosen) → chosen < need }
{
    let request = Request {
        table,
        vet,
        taken,
        piece_len,
        words,
    };
    let picks = picks(alloc, &request, need as usize, fresh as usize)?;
    if picks.len() < need as usize {
        return Err(PlaceErr::Few {
            chosen: picks.len() as u8,
        });
    }
    Ok(Items::of(ids(alloc, &picks)?))
}

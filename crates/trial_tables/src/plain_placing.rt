// The placement said in the plainest way, to compare with: each pick looks at all nodes again.
use node_registry::{Node, Status, subnet};
use placement::PlaceErr;
use sat_base::{NoMemory, NodeId};
use std::alloc::Global;

/// What a placement is asked for, as of `place`.
#[derive(Clone, Copy)]
pub struct Wish<'a> {
    pub nodes: &'a [Node],
    pub vet: u16,
    pub need: u8,
    pub fresh: u8,
    pub taken: &'a [u32],
    pub piece_len: u64,
    pub words: &'a [u64],
}

// Whether a node may be picked where these subnets are used.
fn is_eligible(wish: &Wish<'_>, used: &[u32], node: &Node) -> bool {
    node.status == Status::Active
        && node.free >= wish.piece_len
        && !used.contains(&subnet(node.addr))
}

// In how many subnets there are eligible nodes.
fn subnet_count(alloc: Global, wish: &Wish<'_>) -> Result<usize, NoMemory> {
    let mut subnets = Vec::new(alloc);
    for node in wish.nodes {
        if is_eligible(wish, wish.taken, node) {
            subnets.push(subnet(node.addr))?;
        }
    }
    subnets.sort_unstable();
    subnets.dedup();
    Ok(subnets.len())
}

// How many picks a phase may make, behind so many.
fn quota(wish: &Wish<'_>, phase: u8, picked: usize) -> usize {
    match phase {
        0 => wish.need.saturating_sub(wish.fresh) as usize,
        1 => wish.fresh as usize,
        _ => (wish.need as usize).saturating_sub(picked),
    }
}

// The eligible nodes that are vetted, or those that aren't.
fn eligible(
    alloc: Global,
    wish: &Wish<'_>,
    used: &[u32],
    vetted: bool,
) -> Result<Vec<Node>, NoMemory> {
    let mut eligible = Vec::new(alloc);
    for node in wish.nodes {
        if (node.passes >= u32::from(wish.vet)) == vetted && is_eligible(wish, used, node) {
            eligible.push(*node)?;
        }
    }
    Ok(eligible)
}

// The node that a word picks, where there is one.
fn pick(nodes: &[Node], word: u64) -> Option<Node> {
    if nodes.is_empty() {
        return None;
    }
    Some(nodes[(word % nodes.len() as u64) as usize])
}

// Adds the picks of a phase, and their subnets.
fn pick_phase(
    alloc: Global,
    wish: &Wish<'_>,
    phase: u8,
    used: &mut Vec<u32>,
    picks: &mut Vec<NodeId>,
) -> Result<(), NoMemory> {
    for _ in 0..quota(wish, phase, picks.len()) {
        let eligible = eligible(alloc, wish, used, phase % 2 == 0)?;
        let word = wish.words.get(picks.len()).copied().unwrap_or(0);
        match pick(&eligible, word) {
            Some(node) => {
                used.push(subnet(node.addr))?;
                picks.push(node.id)?;
            }
            None => break,
        }
    }
    Ok(())
}

fn picked(alloc: Global, wish: &Wish<'_>) -> Result<Vec<NodeId>, NoMemory> {
    let mut used = wish.taken.to_vec(alloc)?;
    let mut picks = Vec::new(alloc);
    for phase in 0u8..4 {
        pick_phase(alloc, wish, phase, &mut used, &mut picks)?;
    }
    Ok(picks)
}

/// The ids of the picks of the four phases.
pub fn plain(alloc: Global, wish: &Wish<'_>) -> Result<Vec<NodeId>, PlaceErr> {
    let count = subnet_count(alloc, wish)?;
    if count < wish.need as usize {
        return Err(PlaceErr::Few {
            chosen: count as u8,
        });
    }
    Ok(picked(alloc, wish)?)
}

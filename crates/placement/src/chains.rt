// Which nodes are in a subnet.
ghost use Rattle.std.specs.Prelude.{◌≡◌, ◌+◌, ◌<◌, ◌^◌, ◌++◌, ◌∷◌, [], length, IfOk};
ghost use Rattle.placement.specs.Chains.{struck};

use crate::flags::Flags;
use sat_base::NoMemory;
use std::alloc::Global;
use std::marker::Model;

// About how many buckets there are at most.
const BUCKETS: usize = 65536;

// A node's subnet, and one more than the place of the node before it in its bucket, or 0 where it is the first.
#[derive(Clone, Copy)]
struct Link {
    subnet: u32,
    before: u32,
}

// Nodes in subnets. Contracts see the subnets, by the nodes' places, and for how many more nodes there is room.
//
// The subnets are in buckets, and the nodes of a bucket are a chain, from its last node on. So to go over the
// nodes of a subnet costs a step for each node of its bucket.
#[derive(Drop)]
pub struct Chains {
    links: Vec<Link>,
    // For each bucket one more than the place of its last node, or 0 where it has none.
    last: Vec<u32>,
}

impl Model for Chains {
    ghost use Rattle.std.specs.Prelude.{◌-◌, vec_capacity, vec_len};
    ghost use Rattle.placement.specs.Chains.{Chained, subnets_of, AreChained};

    ghost Value = { Chained };

    ghost view = { λ c. record {
      subnets = subnets_of c.links.items;
      spare = vec_capacity c.links - vec_len c.links;
    } };

    ghost invariant = { λ c. AreChained c.links.items c.last.items };
}

impl Chains {
    // No nodes, and room for so many.
    pub fn new(alloc: Global, room: usize) -> Result<Self, NoMemory>
        ensures subnets { IfOk result (λ chains. chains.subnets ≡ []) }
        ensures spare { IfOk result (λ chains. chains.spare ≡ room) }
    {
        // About a bucket a node. The number is odd, so that subnets a power of two apart are in many buckets.
        let buckets = room.min(BUCKETS) / 2 * 2 + 1;
        Ok(Chains {
            links: Vec::with_capacity(alloc, room)?,
            last: vec![in alloc; 0u32; buckets]?,
        })
    }

    // Adds a node for which there is room, in this subnet.
    pub fn push(&mut self, subnet: u32)
        requires room { 0 < self.old.spare }
        requires number { length self.old.subnets + 1 < 2 ^ 32 }
        ensures subnets { self.new.subnets ≡ self.old.subnets ++ subnet ∷ [] }
        ensures spare { self.new.spare + 1 ≡ self.old.spare }
    {
        let bucket = subnet as usize % self.last.len();
        let before = self.last[bucket];
        self.links.push_reserved(Link { subnet, before });
        self.last[bucket] = self.links.len() as u32;
    }

    // Sets down the flags of the nodes in a subnet.
    pub fn strike(&self, subnet: u32, vetted: &mut Flags, unvetted: &mut Flags)
        requires vetted_long { length vetted.old ≡ length self.now.subnets }
        requires unvetted_long { length unvetted.old ≡ length self.now.subnets }
        ensures vetted { vetted.new ≡ struck self.now.subnets subnet vetted.old }
        ensures unvetted { unvetted.new ≡ struck self.now.subnets subnet unvetted.old }
    {
        let buckets = self.last.len();
        let mut left = self.last[subnet as usize % buckets] as usize;
        while left > 0 {
            let place = left - 1;
            let link = self.links[place];
            if link.subnet == subnet {
                vetted.clear(place);
                unvetted.clear(place);
            }
            left = link.before as usize;
        }
    }
}

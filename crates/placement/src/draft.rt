// A placement in the making.
ghost use Rattle.std.specs.Prelude.{◌≡◌, ◌+◌, ◌<◌, ◌≤◌, [], IfOk, OnOk, length};
ghost use Rattle.placement.specs.Flags.{count};
ghost use Rattle.placement.specs.Placed.{IsPhase};
ghost use Rattle.placement.specs.Chains.{struck};
ghost use Rattle.placement.specs.Draft.{terms_of, flags_in, IsDraft, IsDraftAt, AddsPick};

use crate::chains::Chains;
use crate::flags::Flags;
use crate::request::{Class, Request};
use node_registry::{Node, subnet};
use sat_base::NoMemory;
use std::alloc::Global;

// The picks so far, and which nodes may be picked next: for each class a flag for each node.
#[derive(Drop)]
pub struct Draft {
    pub picks: Vec<Node>,
    chains: Chains,
    vetted: Flags,
    unvetted: Flags,
}

impl Draft {
    // No picks, and the taken subnets are used.
    pub fn new(alloc: Global, request: &Request<'_>) -> Result<Self, NoMemory>
        ensures draft { IfOk result (λ draft. IsDraft (terms_of request.now) draft) }
        ensures picks { IfOk result (λ draft. draft.picks.items ≡ []) }
    {
        let mut draft = Draft::open(alloc, request)?;
        for subnet in request.taken {
            draft.strike(*subnet);
        }
        Ok(draft)
    }

    // No picks, and no subnet is used.
    fn open(alloc: Global, request: &Request<'_>) -> Result<Self, NoMemory>
        ensures draft { IfOk result (λ draft. IsDraftAt (terms_of request.now) [] draft) }
        ensures picks { IfOk result (λ draft. draft.picks.items ≡ []) }
    {
        let count = request.table.len();
        let mut chains = Chains::new(alloc, count)?;
        let mut vetted = Vec::with_capacity(alloc, count)?;
        let mut unvetted = Vec::with_capacity(alloc, count)?;
        for node in request.table.nodes() {
            let is_open = request.is_open(node);
            chains.push(subnet(node.addr));
            vetted.push_reserved(request.is_of(Class::Vetted, node) && is_open);
            unvetted.push_reserved(request.is_of(Class::Unvetted, node) && is_open);
        }
        Ok(Draft {
            picks: Vec::new(alloc),
            chains,
            vetted: Flags::of(alloc, vetted)?,
            unvetted: Flags::of(alloc, unvetted)?,
        })
    }

    // Lets no node of a subnet be picked any more.
    fn strike(&mut self, subnet: u32)
        requires vetted { length self.old.vetted ≡ length self.old.chains.subnets }
        requires unvetted { length self.old.unvetted ≡ length self.old.chains.subnets }
        ensures chains { self.new.chains ≡ self.old.chains }
        ensures picks { self.new.picks.items ≡ self.old.picks.items }
        ensures vetted { self.new.vetted ≡ struck self.old.chains.subnets subnet self.old.vetted }
        ensures unvetted { self.new.unvetted ≡ struck self.old.chains.subnets subnet self.old.unvetted }
    {
        self.chains
            .strike(subnet, &mut self.vetted, &mut self.unvetted);
    }

    // Which nodes of a class may be picked.
    fn flags(&self, class: Class) -> &Flags
        ensures { result.now ≡ flags_in class self.now }
    {
        match class {
            Class::Vetted => &self.vetted,
            Class::Unvetted => &self.unvetted,
        }
    }

    // The next pick of a class that has an eligible node.
    fn pick(&mut self, request: &Request<'_>, class: Class) -> Result<(), NoMemory>
        requires draft { IsDraft (terms_of request.now) self.old }
        requires some { 0 < count (flags_in class self.old) }
        requires words { length self.old.picks.items < length request.now.words.now }
        ensures draft { OnOk result (IsDraft (terms_of request.now) self.new) }
        ensures pick { OnOk result (AddsPick (terms_of request.now) class
            self.old.picks.items self.new.picks.items) }
    {
        let words = request.words;
        let word = words[self.picks.len()];
        let flags = self.flags(class);
        let place = flags.select((word % flags.count() as u64) as usize);
        let nodes = request.table.nodes();
        let node = nodes[place];
        let subnet = subnet(node.addr);
        self.picks.push(node)?;
        self.strike(subnet);
        Ok(())
    }

    // Picks of a class, up to a quota, or as many as it has eligible nodes for.
    pub fn pick_up_to(
        &mut self,
        request: &Request<'_>,
        class: Class,
        quota: usize,
    ) -> Result<(), NoMemory>
        requires draft { IsDraft (terms_of request.now) self.old }
        requires words { length self.old.picks.items + quota ≤ length request.now.words.now }
        ensures draft { OnOk result (IsDraft (terms_of request.now) self.new) }
        ensures phase { OnOk result (IsPhase (terms_of request.now) class quota
            self.old.picks.items self.new.picks.items) }
    {
        for _ in 0..quota {
            if self.flags(class).count() == 0 {
                break;
            }
            self.pick(request, class)?;
        }
        Ok(())
    }
}

ghost use Rattle.std.specs.Prelude.{◌≡◌};
ghost use Rattle.placement.specs.Eligible.{is_open, is_of};
ghost use Rattle.placement.specs.Draft.{terms_of};

use node_registry::{Node, NodeTable, Status};

// What a placement is asked for.
#[derive(Clone, Copy)]
pub struct Request<'a> {
    pub table: &'a NodeTable,
    // From how many passes on a node is vetted.
    pub vet: u16,
    // The subnets in which no node may be picked.
    pub taken: &'a [u32],
    // How many bytes must be free.
    pub piece_len: u64,
    // One for each pick.
    pub words: &'a [u64],
}

// Whether nodes have passed enough audits to be vetted.
#[derive(Clone, Copy)]
pub enum Class {
    Vetted,
    Unvetted,
}

impl Request<'_> {
    // Whether a node takes new pieces and has room for one.
    pub fn is_open(&self, node: &Node) -> bool
        ensures { result ≡ is_open (terms_of self.now) node.now }
    {
        matches!(node.status, Status::Active) && self.piece_len <= node.free
    }

    // Whether a node is of a class.
    pub fn is_of(&self, class: Class, node: &Node) -> bool
        ensures { result ≡ is_of class self.now.vet node.now }
    {
        match class {
            Class::Vetted => u32::from(self.vet) <= node.passes,
            Class::Unvetted => node.passes < u32::from(self.vet),
        }
    }
}

ghost use Rattle.std.specs.Prelude.{◌≡◌};
ghost use Rattle.node_registry.specs.Registry.{joining};
ghost use Rattle.node_registry.specs.Standing.{byte_of, is_counted, is_serving};
ghost use Rattle.node_registry.specs.Subnet.{subnet_at};

use sat_base::{Moment, NodeId, Ranked};

/// How a node stands with the satellite.
#[derive(Clone, Copy, Debug, PartialEq, Eq)]
pub enum Status {
    /// It takes new pieces and serves those that it has.
    Active = 0,
    /// Its score fell too low, and that is for good: none of its pieces counts.
    Disqualified = 1,
    /// It serves the pieces that it has until they are elsewhere, and takes no new ones.
    Exiting = 2,
    /// It has left.
    Exited = 3,
}

impl Status {
    /// The number that stands for it: 0 to 3, in the order above.
    pub fn byte(self) -> u8
        ensures { result ≡ byte_of self }
    {
        self as u8
    }
}

/// A storage node.
#[derive(Clone, Copy, Debug, PartialEq, Eq)]
pub struct Node {
    pub id: NodeId,
    /// The address, IPv4.
    pub addr: u32,
    pub port: u16,
    /// The bytes that it says are free.
    pub free: u64,
    /// When it joined.
    pub joined: Moment,
    /// What the audits weigh that it passed, in thousandths.
    pub alpha: u32,
    /// What the audits weigh that it failed, in thousandths.
    pub beta: u32,
    /// How many audits it passed. It stands still at 2^32 - 1.
    pub passes: u32,
    pub status: Status,
}

impl Node {
    /// A node as it joins: active, and no audit of it passed or failed.
    pub fn joining(id: NodeId, addr: u32, port: u16, free: u64, joined: Moment) -> Node
        ensures { result ≡ joining id addr port free joined }
    {
        Node {
            id,
            addr,
            port,
            free,
            joined,
            alpha: FIRST_ALPHA,
            beta: 0,
            passes: 0,
            status: Status::Active,
        }
    }

    /// Whether its pieces count as healthy.
    pub fn counts(&self) -> bool
        ensures { result ≡ is_counted self.now.status }
    {
        match self.status {
            Status::Disqualified | Status::Exited => false,
            _ => true,
        }
    }

    /// Whether it serves its pieces, and so is audited.
    pub fn serves(&self) -> bool
        ensures { result ≡ is_serving self.now.status }
    {
        match self.status {
            Status::Active | Status::Exiting => true,
            _ => false,
        }
    }
}

/// What the passes of a node weigh as it joins.
pub const FIRST_ALPHA: u32 = 10_000;

/// When an exited node left.
#[derive(Clone, Copy)]
pub struct Left {
    pub node: NodeId,
    pub at: Moment,
}

/// By its node.
impl Ranked for Left {
    ghost use Rattle.node_registry.specs.Left.{left_rank};

    ghost rank = { left_rank };

    fn rank(&self) -> u128 {
        self.node.0 as u128
    }
}

/// The subnet of an IPv4 address: its first three bytes, as a number.
pub fn subnet(addr: u32) -> u32
    ensures { result ≡ subnet_at addr }
{
    addr >> 8
}

// The devices of a storage node, and what it leaves.
use sat_base::Link;
use stor_serve::Served;

/// The devices of a storage node.
#[derive(Drop)]
pub struct NodeWorld<C: Link, K, P, L, T, S> {
    /// Where faults are written.
    pub console: C,
    /// What keeps the rows of its orders.
    pub keeper: K,
    pub pieces: P,
    /// The links that are served.
    pub lane: L,
    pub clock: T,
    /// Who settles its orders.
    pub settler: S,
}

/// The end of a storage node's run.
#[derive(Drop)]
pub struct NodeEnded<C: Link, K, P, L, T, S> {
    pub status: u8,
    /// The devices, as the run left them.
    pub world: NodeWorld<C, K, P, L, T, S>,
    /// What came of each link, in order.
    pub served: Vec<Served>,
}

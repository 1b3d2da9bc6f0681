// The devices of a run, and what it leaves.
use node_rounds::Kit;
use sat_base::Link;
use sat_drill::Drilled;
use sat_sessions::Post;
use sat_term::Term;

/// The devices of a run. `init` uses the clock and the words of `audit`.
#[derive(Drop)]
pub struct World<C: Link, K, L, N, T, W, I, G> {
    /// Where input is read, and answers and faults are written.
    pub console: C,
    /// What keeps the rows of the store.
    pub keeper: K,
    /// What the worker of each lane has, at most 16 of them.
    pub posts: Vec<Post<L, T, W>>,
    /// What the workers of rounds have: the one that audits, the one that repairs, and the one that tallies.
    pub audit: Kit<N, T, W, I>,
    pub repair: Kit<N, T, W, I>,
    /// Of this one the nodes and the words aren't used.
    pub tally: Kit<N, T, W, I>,
    /// What the workers pass.
    pub gate: G,
}

/// The end of a run.
#[derive(Drop)]
pub struct Ended<C: Link, K, L, N, T, W, I, G> {
    /// The status that the process ends with, see [`Status`](crate::Status).
    pub status: u8,
    /// The devices, as the run left them.
    pub world: World<C, K, L, N, T, W, I, G>,
    /// What happened, exactly where `serve` opened its book.
    pub term: Option<Term>,
    /// What a drill did, exactly where `drill` was run and found memory.
    pub drilled: Option<Drilled>,
}

//! Storage nodes, asked all at once over the network by one thread.
//!
//! - [`Gather`] is many futures as one, whose output is the list of theirs in asking order, in whatever order they become
//!   ready. A poll polls each that isn't ready yet, and none that was; it takes no memory.
//! - [`TokioNodes`] is `sat_base`'s `Nodes` over TCP. Each ask is a state machine by hand, which connects, sends its
//!   request and reads the answer by `node_wire`. `fetch_all` gathers all of them, each with a limit of ten seconds, and of
//!   thirty over all asks with its order, on an event loop of this thread. An answer is what the bytes of some answer say
//!   (`heard`); the count of faults rises by the asks without one (`exact`).
//!
//! Not promised: that a poll that is pending has polled a future that waits for no source, that a request reaches a
//! node, what a node sends, how long an ask takes, or that a future becomes ready. `trial_gather` tries these.
#![tactic(auto)]

mod asking;
mod gather;
mod part;
mod patience;
mod round;
mod timed;
mod tokio_nodes;

pub use gather::Gather;
pub use node_wire::{Fed, Outcome, Reading};
pub use part::Part;
pub use tokio_nodes::TokioNodes;

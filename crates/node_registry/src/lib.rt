//! The storage nodes that a satellite knows: who they are, how they stand, and what reputation their audits gave them.
//!
//! - [`after`] is the beta reputation of a node after the outcome of an audit, exactly: a score below 600
//!   disqualifies it, and a node that isn't serving stays as it was. [`reputation_stays_rated`]: whatever outcomes
//!   come, the weights stay in their bounds, and a node that is disqualified stays so.
//! - [`NodeTable`] is a list of nodes with the ids 1 to their number. Its calls change it as they say and nothing else,
//!   and take no memory where there is room. A node is looked up in one step.
//!
//! Not promised: that an address or the free bytes of a node are true; they are what was said.
#![tactic(auto)]

mod node;
mod reputation;
mod table;

pub use node::{FIRST_ALPHA, Left, Node, Status, subnet};
pub use reputation::{Outcome, after, reputation_stays_rated, score};
pub use table::{AddErr, NodeTable};

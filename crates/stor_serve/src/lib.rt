//! The service of a storage node: it answers links, one after another, and behind each offers the order that is due.
//!
//! - [`serve_lane`] serves the links of a lane until it is over. Of each link it reads one request, counts its bytes under the
//!   order that comes along, and only then gives or keeps them; so never more is served than an order allows.
//! - Behind each link the order that is due at its moment is offered once, and finished where the offer settles it.
//! - Over all links of a lane, what is served under a serial rises by the bytes of the links that were taken under it, a serial
//!   comes to be settled only by an offer that was answered by `Done`, and a piece holds the body of the last link that was taken
//!   to put it, where that is answered by 200.
//! - [`Served`] is what came of one link.
//!
//! Not promised: that a wait, a read or an offer returns.
#![tactic(auto)]

mod lane;
mod link;
mod node;
mod offering;
mod performing;
mod served;

pub use lane::{NodeEnd, NodeRan, serve_lane};
pub use node::Node;
pub use served::Served;

//! The storage node: its words, and its run from the opening of its orders to its status, over any devices.
//!
//! [`stor_node`] is the top call. It reads the words ([`read_words`]), opens the orders that the node serves under over the
//! keeper (`order_uses`), and serves the links of its lane (`stor_serve`) over the devices of a [`NodeWorld`], until there are
//! no more. What came of each link is in [`NodeEnded`].
//!
//! Each status has its cause. Over all links together, the bytes that were counted under an order, the orders that were
//! settled, and the pieces that are held stand in its clauses.
//!
//! Not promised: that memory is found (9 has no cause that a clause could name), or that a wait, a read, a write or an offer
//! returns.
#![tactic(auto)]

pub mod bounds;
mod ending;
mod running;
mod top;
mod words;
mod world;

pub use stor_serve::Served;
pub use top::stor_node;
pub use words::{NodeWords, read_words};
pub use world::{NodeEnded, NodeWorld};

//! What a storage node stands on: where its pieces are kept, and the satellite that settles its orders.
//!
//! - [`Pieces`] keeps pieces by segment and index: [`Pieces::read`] gives the asked range of what is held, or that nothing is,
//!   and [`Pieces::write`] puts bytes in place of what is held, and leaves every other piece.
//! - [`Settler`] is offered orders. What it was offered, each order with its answer, stands in order where it tells.
//!
//! A failed call raises its object's count by one, up to 2^64 - 1, and no other answer does. Each has a form in memory that tells
//! all, [`MemPieces`] and [`MemSettler`], of which calls of chosen numbers fail.
//!
//! Not promised: what a piece is after a write that wasn't kept, or what a real folder holds.
#![tactic(auto)]

mod failing;
mod mem_pieces;
mod mem_settler;
mod pieces;
mod settler;

pub use mem_pieces::MemPieces;
pub use mem_settler::MemSettler;
pub use pieces::{Piece, Pieces};
pub use settler::{OfferMade, Offered, Settler};

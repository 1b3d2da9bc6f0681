//! Segments and what happens to their pieces: a customer commits those that it uploaded, and a repair puts new ones
//! in place of those that are lost.
//!
//! A [`Segment`] keeps its pieces by rising index, each index once, by its type.
//!
//! - [`commit`] makes a pending segment live: its pieces are exactly the offered places of the indexes. It refuses
//!   exactly by the first cause of [`CommitErr`] that holds.
//! - [`healthy`] is the filter by nodes that are known and count. A piece at an unknown node is not healthy.
//! - [`are_places`] tells whether places stand by rising index below 128.
//! - [`mend`] holds exactly the kept and the added pieces, one version later. Each of the two lists has to rise.
//!
//! Not promised: that a piece lies where the record says. An audit finds that.
#![tactic(auto)]

mod committing;
mod pieces;
mod places;
mod segment;

pub use committing::{CommitErr, commit};
pub use pieces::{healthy, mend};
pub use places::are_places;
pub use segment::Segment;

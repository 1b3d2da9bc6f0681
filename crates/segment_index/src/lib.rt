//! The order in which segments are looked for, so that no call looks at all of them.
//!
//! A [`SegmentIndex`] keeps the segments, and tells at the cost of a logarithm or of the blocks of live ids:
//!
//! - [`SegmentIndex::live_at`], the live segment at a place in the order of ids;
//! - [`SegmentIndex::least`], the one that needs repair most: of those with at least `k` and fewer than `m` healthy pieces
//!   the one with the fewest, and of these the least id;
//! - [`SegmentIndex::first_at`] and [`SegmentIndex::next_at`], the live segments with a piece at a node.
//!
//! Each is exactly what a look at all segments would find. Room for a segment is made before it is put, and then putting
//! it takes no memory. A node that stops serving is only noted by [`SegmentIndex::lose`]; [`SegmentIndex::refresh`] counts its
//! pieces as lost, which passes over that node's segments. Until then `least` is exact for the nodes that were counted.
//!
//! A [`PairSet`] keeps pairs of numbers in the order of the first one, and of the second where those are equal. By it the
//! segment that needs repair most is the first of the pairs (number of healthy pieces, id), and the segments with a piece
//! at a node are the pairs (node, id), one after another. A slot is made for a pair before it is put, and putting it
//! takes no memory.
#![tactic(auto)]

mod health;
mod index;
mod live;
mod losing;
mod moving;
mod opening;
mod pairs;
mod queries;
mod refreshing;

pub use health::Limits;
pub use index::SegmentIndex;
pub use pairs::{Pair, PairSet};

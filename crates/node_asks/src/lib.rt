//! What plans ask of storage nodes, and what comes of it.
//!
//! - [`hear`] asks each place of an audit for its share of one stripe, all at once, and [`hear_one`] the place of a
//!   recheck. Every ask has its place's node, address and port, the range, and the order of the plan under the keys.
//! - [`remake`] asks the sources of a repair window by window, and makes the fresh pieces of its targets of what comes.
//! - [`spread`] puts fresh pieces at the targets of a repair, and tells which are kept.
//! - [`conclude`] tells how a repair ended whose pieces were made.
//!
//! Each source that gave no answer, and each target that isn't told as kept, is counted by the nodes. Where these tell
//! what they hold, each share is the asked range of it.
//!
//! An order is for the whole limit, so a node is paid for an ask by what it may move.
#![tactic(auto)]

mod answers;
mod asking;
mod asks;
mod ending;
mod hearing;
mod remaking;
mod spreading;

pub use ending::conclude;
pub use hearing::{hear, hear_one};
pub use remaking::{Heeded, WINDOW, remake};
pub use spreading::spread;

//! Which nodes get the pieces of a segment: picks by random words among the nodes that may be picked, no two of one
//! subnet.
//!
//! [`place`] gives exactly the picks of its four phases, pick by pick: of the c eligible nodes of its class, by id,
//! the one at the place `word mod c` (`placed`). There are as many as wanted, each eligible at the start, no two of
//! one subnet (`spread`). `Few` comes only where the eligible nodes are in too few subnets, with their number (`few`,
//! `wanting`), and nodes come only where they are in enough (`enough`).
//!
//! It passes over all nodes once a call. A pick then looks at the nodes of its subnet, with those that share a bucket
//! of subnets, at one block of 256 nodes, and at a count for each block.
//!
//! Not promised: that the picks are even. They are as random as the words, less what `mod c` takes.
#![tactic(auto)]

mod chains;
mod draft;
mod flags;
mod placing;
mod request;

pub use placing::{PlaceErr, place};

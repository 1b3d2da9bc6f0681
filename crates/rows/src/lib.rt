//! Rows of one kind in the order of a number, their rank, at most one of a rank. Three tables, one contract:
//!
//! | table | for | a look-up | a row more or less | memory |
//! |---|---|---|---|---|
//! | [`Rows`], a sorted vector | tens to thousands of rows, read far more often than written | logarithm | moves those behind it | room is made by count, before a row is added |
//! | [`SlottedRows`], a tree of slots | rows put, replaced and removed all the time | logarithm | logarithm | a slot holds the room of one rank, and is made before |
//! | [`BlockRows`], blocks of at most 512 | millions of rows that come in any order and mostly stay | logarithm | moves at most a block, now and then the list of blocks | room for one more row is made before |
//!
//! Contracts see the plain list: what is found, added, replaced and removed is the list's find, filter and map, over
//! any type that has a rank below 2^128 ([`Ranked`]). Where there is room, a row is put without taking memory, so a
//! step that was prepared can be finished.
//!
//! Each tells its first row and the first one above a rank, so that a walk goes from row to row; [`BlockRows`] tells the
//! k-th row too, and passes over blocks to it.
#![tactic(auto)]

mod blocks;
mod copying;
mod finding;
mod moving;
mod rows;
mod slots;

pub use blocks::BlockRows;
pub use rows::Rows;
pub use sat_base::Ranked;
pub use slots::SlottedRows;

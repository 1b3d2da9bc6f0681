//! A drill: a large input to the machine of a satellite, made from a number.
//!
//! [`drill`] makes a store in memory, adds nodes and a customer, and then lets each turn's word say what happens: the
//! customer uploads a segment or fetches a piece, a node presents an order again, a stripe is audited, a segment repaired,
//! an hour tallied. Nodes 3, 6 and 9 alter what they keep. At last the month is closed.
//!
//! - The history is lawful from the tables that the opening rows spell, and no reply in it is a `StoreFault`. Each order
//!   was settled once, nodes are paid by the tariff, and months that are closed stay so.
//! - The text counts the replies of that history, and has the sheet of its first month (`specs/Drill.antt`).
//! - The words are those of splitmix64 (`specs/Generator.antt`).
//!
//! Not promised, but tested: that the calls are those of the words, and how many fresh pieces of repairs are wrong.
#![tactic(auto)]

mod altering;
mod counting;
mod customer;
mod drilling;
mod driver;
mod generator;
mod opening;
mod orders;
mod run;
mod steady;
mod telling;
mod uploads;

pub use altering::Altering;
pub use drilling::{Drilled, drill};
pub use uploads::Uploads;

//! What a storage node keeps of the orders that it serves under, so that it never serves more bytes than an order allows, and
//! offers each order until it is settled.
//!
//! - [`Uses`] is rows, one of a serial: the order of the greatest amount, how many bytes were served under the serial, and
//!   whether it was settled. They are in a keeper before a call returns.
//! - [`Uses::take`] counts bytes before they are served: it answers by the first refusal that holds ([`TakeErr`]), or the row
//!   is counted and kept. [`Uses::due`] gives the order to offer next, and [`Uses::finish`] notes that it is settled.
//! - At every moment, through openings too, what was served under a serial is at most the kept order's amount, which is at
//!   most its limit, whose tag is under the node's key; and an order that is done stays done ([`uses_stay_within`]).
//! - What was served is the sum of the lengths that were taken ([`served_adds_up`]).
//!
//! Not promised: that an uplink's own tag on an order is right, which a node can't test.
#![tactic(auto)]

mod bytes;
mod counting;
mod due;
mod expiry;
mod index;
mod keeping;
mod laws;
mod loading;
mod opening;
mod putting;
mod row;
mod stored;
mod table;
mod take;
mod uses;

pub use laws::{served_adds_up, uses_stay_within};
pub use opening::UsesErr;
pub use row::OrderUse;
pub use take::{TakeErr, Wanted};
pub use uses::Uses;

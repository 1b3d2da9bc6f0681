//! Settled orders: each pair of a serial and a node settles at most once, within its limit.
//!
//! [`Settled::settle`] answers and changes the rows as the rules say, the first refusal in the order of
//! [`SettleErr`]. What it settles is a good order of the node, in time and within its limit, whose serial and node
//! had no row before and have one from then on (`first`); each row that was there stays (`kept`). An equal order that
//! comes again is answered `Again`. [`Settled::check`] is its answer without the change. Out of memory leaves the
//! rows.
//!
//! A look-up costs the logarithm of the rows; adding a row moves a few hundred at most, and now and then the list of
//! blocks.
//!
//! The rows rise by serial and node (`rows_rise`).
//!
//! Not promised: that a moment that is given is the true one.
#![tactic(auto)]

mod answer;
mod row;
mod settled;

pub use answer::{Settlable, SettleErr, Settling};
pub use row::SettledRow;
pub use settled::Settled;

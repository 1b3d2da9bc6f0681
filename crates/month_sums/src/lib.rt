//! What each node did in each month, kept beside the rows and in step with them, and what goes by it: the statements of
//! a month that is closed, and the test of those that are there.
//!
//! - [`add_settled`] and [`add_tally`] keep the sums in step where an order settles or an hour is tallied. They take no
//!   memory: the slot of the month and the node is made before. [`count_all`] counts all rows at once.
//! - [`close_all`]: the statements of the next month, by one look-up for each node.
//!   [`what_is_kept_closes_a_month`]: where the rules hold and the sums are in step, all that it asks for is so.
//! - [`first_broken`]: the least place that breaks the rule of statements, in one pass over them; [`sums_due`] are the
//!   sums that it goes by, and it begins with [`no_pots`].
//!
//! The definitions of months and pay are those of `month_pay`.
#![tactic(auto)]

mod closing;
mod counting;
mod laws;
mod looking;
mod opening;
mod sums;
mod tally;

pub use closing::{close_all, month_at};
pub use counting::{count_all, no_pots, sums_due};
pub use laws::what_is_kept_closes_a_month;
pub use opening::{Found, Stated, first_broken};
pub use sums::{OpenSums, add_settled, place_of, sums_at};
pub use tally::add_tally;

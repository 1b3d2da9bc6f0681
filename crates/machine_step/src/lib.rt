//! The step of a satellite's machine, as definitions: its tables and their rules, and what comes of each call. The
//! crate `sat_machine` has the machine that takes these steps.
//!
//! A step is a reply and a list of changes, and the tables after it follow from the list. A call is read from top to
//! bottom in its file of `specs/Calls`, its refusals in the order in which they are tested. The rules stand in
//! `specs/Rules.antt`, the bounds of each record in `specs/Bounds.antt`.
//!
//! Laws, over all tables and calls:
//!
//! - [`a_refusal_changes_nothing`].
//! - [`each_step_is_answered`]: what a caller requests by a reply that it is told, and nothing by one of a step that
//!   wasn't made.
//! - [`each_step_keeps_the_rules`]: with the order of the rows and the bounds of the records, for a call that is well
//!   formed.
//! - [`each_change_can_be_written`]: what a step changes is within what a store's records hold.
//! - [`a_closed_month_stays`]: neither its sums nor its statements change.
//! - [`pay_is_conserved`]: what was paid, returned and is held of a node is what it earned, by the tariff, on the rows
//!   of each month.
//! - [`a_close_stays_in_bounds`], and [`stored_bytes_follow_the_segments`]: what code that closes months and tallies
//!   hours goes by.
//!
//! Not promised here: that code does so. That is `sat_machine`.
#![tactic(auto)]

mod laws;

pub use laws::{
    a_close_stays_in_bounds, a_closed_month_stays, a_refusal_changes_nothing,
    each_change_can_be_written, each_step_is_answered, each_step_keeps_the_rules, pay_is_conserved,
    stored_bytes_follow_the_segments,
};

//! Laws of histories: of the calls that a satellite's machine was asked, one after another, with what was answered. A
//! step that the store failed to keep, or for which memory ran out, is part of a history and changes nothing.
//!
//! - [`an_equal_request_acts_once`]: of two equal numbered requests of a caller, where the first was accepted, no
//!   other number of the caller was accepted between them and nothing stopped the machine, the second has the first's
//!   answer and changes nothing.
//! - [`each_history_keeps_the_rules`]: the tables keep every rule, the order of their rows and the bounds of their
//!   records throughout.
//! - [`each_order_settles_once`]: an order that was settled is a good one of its node, within its limit, and the first
//!   of its serial and node.
//! - [`equal_versions_are_equal`]: a segment that is found at two moments in one version is the same record, so its
//!   pieces are the same.
//! - [`closed_months_stay`]: neither the sums of a closed month nor its statements change any more.
//!
//! Not promised here: that what a program answered is a history. That is for what runs the machine to say.
#![tactic(auto)]

mod laws;

pub use laws::{
    an_equal_request_acts_once, closed_months_stay, each_history_keeps_the_rules,
    each_order_settles_once, equal_versions_are_equal,
};

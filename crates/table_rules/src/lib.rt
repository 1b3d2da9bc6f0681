//! The rules of the tables, tested over rows of which a machine is to be made.
//!
//! Each function names exactly the first row that breaks its kind's rule, or none where all keep it: [`bad_node`],
//! [`bad_customer`], [`bad_segment`], [`bad_settled`], [`bad_tally`], [`bad_statement`], [`bad_containment`],
//! [`bad_kept`], [`bad_left`], [`missing_left`], [`bad_tariff`], and [`are_sound_marks`] for the marks. An open plan
//! keeps its rule or doesn't: [`is_sound_audit`], [`is_sound_recheck`], [`is_sound_repair`], [`is_sound_exit`]. The
//! rules are those of `machine_step`.
//!
//! A test passes over the rows once. Only [`bad_statement`] takes memory: a sum for each statement, and a pot for each
//! node.
//!
//! Not promised: the bounds of records and the order of rows. What makes a machine asks for them.
#![tactic(auto)]

mod containments;
mod customers;
mod kept;
mod known;
mod left;
mod marks;
mod nodes;
mod pieces;
mod plans;
mod scan;
mod segments;
mod settled;
mod statements;
mod tallies;
mod tariffs;

pub use containments::bad_containment;
pub use customers::bad_customer;
pub use kept::bad_kept;
pub use left::{bad_left, missing_left};
pub use marks::are_sound_marks;
pub use nodes::bad_node;
pub use plans::{is_sound_audit, is_sound_exit, is_sound_recheck, is_sound_repair};
pub use segments::bad_segment;
pub use settled::bad_settled;
pub use statements::{StatementRows, bad_statement};
pub use tallies::bad_tally;
pub use tariffs::bad_tariff;

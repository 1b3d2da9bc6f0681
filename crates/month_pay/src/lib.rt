//! What the pay of a month goes by, and the rule that statements keep.
//!
//! A *ledger* holds the records that pay goes by: nodes, settled rows, tallies, the nodes that left, tariffs and
//! statements, with the first month of the store and the next one to close. What a node did in a month are the orders
//! that were settled in it and the hours that began in it. A month is closed by one statement of each node that has
//! joined by then. The rule of statements: of each closed month each such node has its one statement, as it follows
//! from the rows, and there is no other.
//!
//! - [`months_of_moments`]: the month of a moment, and of an hour, as a number.
//! - [`no_place_is_broken_where_the_rule_holds`] and [`one_pass_finds_the_first_broken_place`]: the rule as a list of
//!   broken places, and how one pass finds the first of them.
//! - [`the_rule_is_kept_by_a_close`], and [`the_rule_is_kept_between_closes`] by whatever leaves the closed months as
//!   they are: [`open_months_leave_the_closed_ones`] says which changes do.
//! - [`pay_is_conserved`], and [`amounts_are_bounded`].
//!
//! There is no code here that runs.
#![tactic(auto)]

mod laws;

pub use laws::{
    amounts_are_bounded, months_of_moments, no_place_is_broken_where_the_rule_holds,
    one_pass_finds_the_first_broken_place, open_months_leave_the_closed_ones, pay_is_conserved,
    the_rule_is_kept_between_closes, the_rule_is_kept_by_a_close,
};

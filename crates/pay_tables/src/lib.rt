//! The tables that pay goes by, and what is kept beside them and in step with them: what each node did in the months
//! without a statement, the bytes that each node stores, and what is held of it.
//!
//! - [`PayTables`] with what is kept, [`Balances`] of nodes.
//! - `place_*` makes the room that a change takes, and `release_*` gives it back. `count_order`, `put_tally`,
//!   `put_statement`, `raise` and `lower` then take no memory, and keep all in step with the rows. [`live_bytes`] are
//!   those of a segment's pieces.
//! - [`PayTables::of`]: the tables of given rows.
//! - [`PayTables::stored_at`] and [`PayTables::pots_of`] are what a tally and a close ask.
//!
//! Laws over all tables that are in step: [`open_sums_are_small`], [`stored_bytes_have_room`],
//! [`a_segment_that_is_there_is_stored`], [`kept_bytes_are_those_stored`], [`kept_pots_go_by_a_ledger`] and
//! [`rows_that_stay_stay_in_step`]. And of rows, [`a_segment_in_place_of_another`].
#![tactic(auto)]

mod balance;
mod laws;
mod opening;
mod placing;
mod putting;
mod stored;
mod tables;

pub use balance::{Balance, Balances};
pub use laws::{
    a_segment_in_place_of_another, a_segment_that_is_there_is_stored, kept_bytes_are_those_stored,
    kept_pots_go_by_a_ledger, open_sums_are_small, rows_that_stay_stay_in_step,
    stored_bytes_have_room,
};
pub use stored::live_bytes;
pub use tables::PayTables;

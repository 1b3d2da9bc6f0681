//! The tables of a satellite as they are kept: how they are made of records, and how a step changes them.
//!
//! - [`store_of`] makes tables exactly of records that keep every rule. Otherwise it names the least rule that is
//!   broken, with the first record that breaks it.
//! - Tallies and statements are kept with what goes beside them ([`PayTables`](pay_tables::PayTables)): [`stored_at`] and
//!   [`pots_of`] ask for it.
//! - The segments are kept in an index, which counts healthy pieces. [`refresh`] brings it up to date with the nodes, and
//!   [`live_at`], [`to_repair`] and [`first_movable`] ask it.
//! - [`Prepared`] is the reply of a step with its changes. [`place_all`] makes the room that these take, [`take_step`]
//!   changes the tables, and [`release_all`] gives the room back.
//!
//! Not promised: that memory is found. The crates above work out what comes of a call; this one knows no call.
#![tactic(auto)]

mod callers;
mod list_tests;
mod making;
mod opening;
mod paying;
mod placing;
mod plans;
mod prepared;
mod queries;
mod steps;
mod store;
mod table_tests;
mod tables;
mod testing;
mod untested;

pub use callers::{asking, risen};
pub use making::store_of;
pub use opening::{CoreErr, rule_err};
pub use placing::{pieces, place_at, places};
pub use plans::Plans;
pub use prepared::{Prepared, accepted, accepted_all, done_with, refused, table_full, unchanged};
pub use queries::{exiting_at, first_movable, live_at, live_count, pots_of, stored_at, to_repair};
pub use steps::{place_all, refresh, release_all, take_step};
pub use store::Store;

//! The machine of a satellite over a keeper of rows, with the history of its calls: each change is kept before it is
//! answered.
//!
//! - [`Book::open`] reads the keeper's rows and makes the machine of them. Otherwise it hands the keeper back and says
//!   why ([`OpenErr`]). Rows of an earlier version of a store are replaced by those of the latest; for version 1
//!   [`for_version_1`] says what that is.
//! - [`Book::apply`] takes one call: it works out the step, has the keeper commit the rows that change, and only then
//!   takes the step and answers. Where nothing changes the keeper isn't called.
//! - [`Book::core`] and [`Book::close`] show what has come of it. A book is also what a desk shares: it is a `Turn`.
//!
//! Contracts see the opening rows, the keeper, the tables and the history. The history is legal from the tables that the
//! opening rows spell, the tables are its replay, and where the keeper tells, its rows are those of the tables
//! (`rows`). What a crash may leave is these rows, or those of one step more that was answered as lost.
//!
//! Rows follow records: [`rows_follow_changes`].
//!
//! Not promised: that memory is found, nor that damage to a store that leaves sound tables is seen.
#![tactic(auto)]

mod adding;
mod answering;
mod book;
mod changes;
mod entry;
mod laws;
mod opened;
mod opening;
mod sorted;
mod sorting;
mod upgrading;

pub use book::{Answered, Book};
pub use entry::Entry;
pub use laws::{for_version_1, rows_follow_changes};
pub use opening::{NotOpened, OpenErr, Opening, Origin};

//! The keeper of a store's rows in one table of a SQLite database, over any store of the crate `sqlite` that can be
//! changed: a file, or memory. It keeps the contract of `sat_base`'s `Keeper`.
//!
//! - A load gives rows in the order of their keys, each key once, whatever the file holds. Where the keeper tells,
//!   these are exactly its rows.
//! - A commit that is done makes all changes in order; one that failed leaves the rows. A crash leaves the last rows,
//!   or those with all changes of the commit that it cut. Each fault raises the count.
//! - [`KeeperSqlite::of`] tells of an empty database (`made`), of whatever the keeper told before (`kept`), and of a
//!   file whose schema is the one table with kinds of a byte (`found`).
//!
//! What is said of values holds while no wrong answer of the disk has been taken as true and no failure has shut the
//! store. What a crash leaves needs only the first.
//!
//! Not promised: when `of` refuses. A table `record` of another shape, as one without a primary key, may be opened,
//! and then the keeper tells nothing. Of SQLite itself the kit's port is trusted (`README.md`).
#![tactic(auto)]

mod keeper;
mod loading;
mod refusal;
mod statements;
mod transactions;

pub use keeper::KeeperSqlite;
pub use refusal::Refused;

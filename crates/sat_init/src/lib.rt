//! A new store: its settings, marks and first tariff, in a keeper that has no rows.
//!
//! [`init`] commits the three records at once and gives the operator's key. Without a secret it draws one. A store that
//! has rows is left as it is, and so is one where something fails.
//!
//! Contracts see which rows the keeper then has, from which secret, moment and month (`specs/NewStore.antt`).
//!
//! Not promised: that memory is found; that random words are random.
#![tactic(auto)]

mod making;
mod secret;
mod setup;

pub use making::init;
pub use setup::{InitErr, Setup};

//! The machine of a satellite as it is kept: the tables of its records, and the one step that each call is. A step is
//! prepared, which leaves the tables, and then finished or forgotten, which takes no memory.
//!
//! - [`Core::new`] makes a machine exactly of records that keep every rule, and its tables are those records.
//!   Otherwise it names the least rule that is broken, with the first record that breaks it. A record of a kind that
//!   no call makes yet breaks its rule.
//! - [`Core::prepare`] gives the reply and the changes of the call's step, and leaves the tables. Between it and the
//!   end the changes can be written elsewhere.
//! - [`Core::finish`] makes the step's tables, [`Core::forget`] leaves them.
//! - The tables of every machine at every moment keep every rule ([`Core::marks`]).
//!
//! Contracts see the tables, and the call whose step is prepared. What comes of a call is worked out by
//! `machine_requests` and `machine_upkeep`; behind its changes the containments fall that it leaves without a node that serves or without their piece.
//!
//! Not promised: that memory is found, or that a step is written anywhere. The records that [`Core::new`] is given
//! have to be in order and within bounds.
#![tactic(auto)]

mod machine;
mod sweep;

pub use machine::Core;
pub use machine_calls::{Call, Parts0, RecChange, Refusal, Reply, TableName};
pub use machine_store::{CoreErr, Prepared};

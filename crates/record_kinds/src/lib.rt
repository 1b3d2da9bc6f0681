//! The records of a store, one kind after another: what a machine is made of, and what a step of it changes.
//!
//! A type alone. Their bytes are those of `record_rows`, and their changes stand in `machine_calls`.
#![tactic(auto)]

mod rec;

pub use rec::Rec;

//! What comes of each request of a client, a node or the operator: its refusals in their order, and then what it changes.
//!
//! [`request_case`] gives exactly the outcome that the machine's step defines, and leaves the tables.
#![tactic(auto)]

mod add_customer;
mod add_node;
mod answers;
mod begin;
mod close_month;
mod commit;
mod delete;
mod exit;
mod get;
mod requests;
mod set_free;
mod set_rates;
mod settle;
mod statement;

pub use requests::request_case;

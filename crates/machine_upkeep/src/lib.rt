//! What comes of each call of the satellite's own work: audits, rechecks of contained nodes, repairs, and nodes that
//! leave. A call tests its refusals in their order, and then says what it changes.
//!
//! [`upkeep_case`] gives exactly the outcome that the machine's step defines, and leaves the tables.
#![tactic(auto)]

mod beside;
mod closing;
mod end_audit;
mod end_exit;
mod end_recheck;
mod end_repair;
mod judging;
mod mending;
mod plan_audit;
mod plan_exit;
mod plan_recheck;
mod plan_repair;
mod tally_hour;
mod upkeep;

pub use upkeep::upkeep_case;

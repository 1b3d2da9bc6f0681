// The kinds of records, each with what its id and its body are spelled from.
mod audit_plan;
mod containment;
mod customer;
mod exit_plan;
mod kept;
mod left;
mod marks;
mod node;
mod recheck_plan;
mod repair_plan;
mod segment;
pub(crate) mod settings;
mod settled;
mod statement;
mod tally;
mod tariff;

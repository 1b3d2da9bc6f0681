// Refusals in words: the number, the name and the evidence.
use machine_calls::{Refusal, TableName};
use sat_base::NoMemory;
use std::alloc::Global;

// What stands beside a refusal.
enum Evidence {
    None,
    Number(u64),
    Numbers(u64, u64),
    Word(&'static str),
}

use Evidence::{None, Number, Numbers, Word};

fn reason(refusal: &Refusal) -> (&'static str, Evidence) {
    match *refusal {
        Refusal::Length { got } => ("length", Number(got)),
        Refusal::Version { got } => ("version", Number(u64::from(got))),
        Refusal::Action { got } => ("action", Number(u64::from(got))),
        Refusal::LimitTag => ("limit-tag", None),
        Refusal::OrderTag => ("order-tag", None),
        Refusal::OtherNode { limit_node } => ("other-node", Number(u64::from(limit_node.0))),
        Refusal::Differs { kept } => ("differs", Number(kept)),
        Refusal::Late { until } => ("late", Number(until)),
        Refusal::OverLimit { limit } => ("over-limit", Number(limit)),
        Refusal::SettledFull { cap } => ("settled-full", Number(u64::from(cap))),
        Refusal::NoNode { node } => ("no-node", Number(u64::from(node.0))),
        Refusal::NoSegment { segment } => ("no-segment", Number(segment.0)),
        Refusal::AlreadyLive { version } => ("already-live", Number(version)),
        Refusal::Few { chosen } => ("few", Number(u64::from(chosen))),
        Refusal::TooFew { have, need } => ("too-few", Numbers(u64::from(have), u64::from(need))),
        Refusal::NotOffered { index } => ("not-offered", Number(u64::from(index))),
        Refusal::Repeated { index } => ("repeated", Number(u64::from(index))),
        Refusal::RequestReused { kept } => ("request-reused", Number(u64::from(kept))),
        Refusal::MonthOpen { now } => ("month-open", Number(u64::from(now.0))),
        Refusal::MonthOrder { next } => ("month-order", Number(u64::from(next.0))),
        Refusal::NothingToAudit => ("nothing-to-audit", None),
        Refusal::NothingToRepair => ("nothing-to-repair", None),
        Refusal::NoPlan { kept } => ("no-plan", Number(kept)),
        Refusal::NothingToRecheck => ("nothing-to-recheck", None),
        Refusal::HourDone { next } => ("hour-done", Number(next.0)),
        Refusal::Size { max } => ("size", Number(max)),
        Refusal::Stopped => ("stopped", None),
        Refusal::TableFull { table } => ("table-full", Word(table_name(table))),
        Refusal::RequestOld { last } => ("request-old", Number(last)),
        Refusal::NoCustomer { customer } => ("no-customer", Number(u64::from(customer.0))),
        Refusal::NoStatement { month } => ("no-statement", Number(u64::from(month.0))),
        Refusal::NotServing { status } => ("not-serving", Number(u64::from(status))),
        Refusal::NothingToExit => ("nothing-to-exit", None),
        Refusal::MonthBegun { now } => ("month-begun", Number(u64::from(now.0))),
    }
}

fn table_name(table: TableName) -> &'static str {
    match table {
        TableName::Nodes => "nodes",
        TableName::Customers => "customers",
        TableName::Segments => "segments",
        TableName::Tallies => "tallies",
        TableName::Statements => "statements",
        TableName::Numbers => "numbers",
        TableName::Tariffs => "tariffs",
    }
}

// A refusal's number, its name and the evidence.
pub(crate) fn told_refusal(alloc: Global, refusal: &Refusal) -> Result<String, NoMemory> {
    let number = refusal.number();
    let (name, evidence) = reason(refusal);
    Ok(match evidence {
        None => format!(in alloc; "refused {number} {name}")?,
        Number(one) => format!(in alloc; "refused {number} {name} {one}")?,
        Numbers(one, two) => format!(in alloc; "refused {number} {name} {one} {two}")?,
        Word(word) => format!(in alloc; "refused {number} {name} {word}")?,
    })
}

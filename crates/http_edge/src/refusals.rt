// Refusals, as the JSON of their answers.
ghost use Rattle.std.specs.Prelude.{◌≡◌, IfOk};
ghost use Rattle.serde_json.specs.Data.{object};
ghost use Rattle.serde_json.specs.View.{view};
ghost use Rattle.http_edge.specs.Refusals.{refused, with_number, with_text, too_few_data, refusal_data, table_text};
ghost use Rattle.month_text.specs.MonthText.{month_text};

use machine_calls::{Refusal, TableName};
use month_text::text_of_month;
use sat_base::Month;
use serde_json::{Value, json};
use std::alloc::{AllocError, Global};

/// The JSON of a refusal: its name, its number and its evidence.
pub(crate) fn refusal_value(alloc: Global, refusal: &Refusal) -> Result<Value, AllocError>
    ensures { IfOk result (λ v. view v ≡ refusal_data refusal.now) }
{
    match *refusal {
        Refusal::Length { got } => number_value(alloc, "length", 1, "got", got),
        Refusal::Version { got } => number_value(alloc, "version", 2, "got", got as u64),
        Refusal::Action { got } => number_value(alloc, "action", 3, "got", got as u64),
        Refusal::LimitTag => refused_value(alloc, "limit-tag", 4),
        Refusal::OrderTag => refused_value(alloc, "order-tag", 5),
        Refusal::OtherNode { limit_node } => number_value(
            alloc,
            "other-node",
            6,
            "limit_node",
            limit_node.0 as u64,
        ),
        Refusal::Differs { kept } => number_value(alloc, "differs", 7, "kept", kept),
        Refusal::Late { until } => number_value(alloc, "late", 8, "until", until),
        Refusal::OverLimit { limit } => number_value(alloc, "over-limit", 9, "limit", limit),
        Refusal::SettledFull { cap } => number_value(alloc, "settled-full", 10, "cap", cap as u64),
        Refusal::NoNode { node } => number_value(alloc, "no-node", 11, "node", node.0 as u64),
        Refusal::NoSegment { segment } => number_value(
            alloc,
            "no-segment",
            12,
            "segment",
            segment.0,
        ),
        Refusal::AlreadyLive { version } => number_value(
            alloc,
            "already-live",
            13,
            "version",
            version,
        ),
        Refusal::Few { chosen } => number_value(alloc, "few", 14, "chosen", chosen as u64),
        Refusal::TooFew { have, need } => too_few_value(alloc, have, need),
        Refusal::NotOffered { index } => number_value(
            alloc,
            "not-offered",
            16,
            "index",
            index as u64,
        ),
        Refusal::Repeated { index } => number_value(alloc, "repeated", 17, "index", index as u64),
        Refusal::RequestReused { kept } => number_value(
            alloc,
            "request-reused",
            18,
            "kept",
            kept as u64,
        ),
        Refusal::MonthOpen { now } => month_value(alloc, "month-open", 19, "now", now),
        Refusal::MonthOrder { next } => month_value(alloc, "month-order", 20, "next", next),
        Refusal::NothingToAudit => refused_value(alloc, "nothing-to-audit", 21),
        Refusal::NothingToRepair => refused_value(alloc, "nothing-to-repair", 22),
        Refusal::NoPlan { kept } => number_value(alloc, "no-plan", 23, "kept", kept),
        Refusal::NothingToRecheck => refused_value(alloc, "nothing-to-recheck", 24),
        Refusal::HourDone { next } => number_value(alloc, "hour-done", 25, "next", next.0),
        Refusal::Size { max } => number_value(alloc, "size", 26, "max", max),
        Refusal::Stopped => refused_value(alloc, "stopped", 27),
        Refusal::TableFull { table } => text_value(
            alloc,
            "table-full",
            28,
            "table",
            table_name(table),
        ),
        Refusal::RequestOld { last } => number_value(alloc, "request-old", 29, "last", last),
        Refusal::NoCustomer { customer } => number_value(
            alloc,
            "no-customer",
            30,
            "customer",
            customer.0 as u64,
        ),
        Refusal::NoStatement { month } => month_value(alloc, "no-statement", 31, "month", month),
        Refusal::NotServing { status } => number_value(
            alloc,
            "not-serving",
            32,
            "status",
            status as u64,
        ),
        Refusal::NothingToExit => refused_value(alloc, "nothing-to-exit", 33),
        Refusal::MonthBegun { now } => month_value(alloc, "month-begun", 34, "now", now),
    }
}

fn refused_value(alloc: Global, name: &str, number: u8) -> Result<Value, AllocError>
    ensures { IfOk result (λ v. view v ≡ object (refused name.now number)) }
{
    json!(in alloc; {"error": name, "number": number})
}

fn number_value(
    alloc: Global,
    name: &str,
    number: u8,
    key: &str,
    value: u64,
) -> Result<Value, AllocError>
    ensures { IfOk result (λ v. view v ≡ with_number name.now number key.now value) }
{
    json!(in alloc; {"error": name, "number": number, key: value})
}

fn text_value(
    alloc: Global,
    name: &str,
    number: u8,
    key: &str,
    value: &str,
) -> Result<Value, AllocError>
    ensures { IfOk result (λ v. view v ≡ with_text name.now number key.now value.now) }
{
    json!(in alloc; {"error": name, "number": number, key: value})
}

fn month_value(
    alloc: Global,
    name: &str,
    number: u8,
    key: &str,
    month: Month,
) -> Result<Value, AllocError>
    ensures { IfOk result (λ v. view v ≡ with_text name.now number key.now (month_text month.0)) }
{
    let text = text_of_month(alloc, month)?;
    text_value(alloc, name, number, key, &text)
}

fn too_few_value(alloc: Global, have: u8, need: u8) -> Result<Value, AllocError>
    ensures { IfOk result (λ v. view v ≡ too_few_data have need) }
{
    json!(in alloc; {"error": "too-few", "have": have, "need": need, "number": 15u8})
}

fn table_name(table: TableName) -> &'static str
    ensures { result.now ≡ table_text table }
{
    match table {
        TableName::Nodes => "nodes",
        TableName::Customers => "customers",
        TableName::Segments => "segments",
        TableName::Tallies => "tallies",
        TableName::Statements => "statements",
        TableName::Numbers => "numbers",
        TableName::Tariffs => "tariffs",
    }
}

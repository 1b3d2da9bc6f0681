// Replies, as the JSON of their answers.
ghost use Rattle.std.specs.Prelude.{◌≡◌, true, IfOk, string_bytes};
ghost use Rattle.hex.specs.Hex.{encode_lower};
ghost use Rattle.serde_json.specs.View.{view};
ghost use Rattle.machine_calls.specs.Replies.{is_sayable};
ghost use Rattle.month_text.specs.MonthText.{month_text};
ghost use Rattle.http_edge.specs.Answers.{error_data, result_data, amount_data, closed_data, rates_data, segment_data, node_data, customer_data, done_data, reply_data};

use crate::offers::offer_value;
use crate::refusals::refusal_value;
use crate::statements::statement_value;
use machine_calls::Reply;
use month_text::text_of_month;
use order_limits::Keys;
use sat_base::{Done, Month};
use serde_json::{Value, json};
use std::alloc::{AllocError, Global};

/// The JSON of a reply.
pub(crate) fn reply_value(alloc: Global, keys: &Keys, reply: &Reply) -> Result<Value, AllocError>
    requires { is_sayable reply.now ≡ true }
    ensures { IfOk result (λ v. view v ≡ reply_data keys.now reply.now) }
{
    match reply {
        Reply::Done(done) => done_value(alloc, keys, done),
        Reply::Settled { amount } => amount_value(alloc, *amount, "settled"),
        Reply::Again { amount } => amount_value(alloc, *amount, "again"),
        Reply::FreeSet => result_value(alloc, "set"),
        Reply::Statement(statement) => statement_value(alloc, statement),
        Reply::Closed { month, fresh } => closed_value(alloc, *month, *fresh),
        Reply::Stopping => result_value(alloc, "stopping"),
        Reply::Exiting { .. } => result_value(alloc, "exiting"),
        Reply::RatesSet { month } => rates_value(alloc, *month),
        Reply::Refused(refusal) => refusal_value(alloc, refusal),
        Reply::StoreFault { .. } => error_value(alloc, "store"),
        Reply::NoMemory => error_value(alloc, "memory"),
        Reply::AuditPlanned { .. }
        | Reply::AuditEnded { .. }
        | Reply::RecheckPlanned { .. }
        | Reply::RecheckEnded { .. }
        | Reply::Gone
        | Reply::RepairPlanned { .. }
        | Reply::RepairEnded { .. }
        | Reply::Unrepaired
        | Reply::Superseded { .. }
        | Reply::Tallied { .. }
        | Reply::Exited { .. }
        | Reply::ExitPlanned { .. } => unreachable!(),
    }
}

fn done_value(alloc: Global, keys: &Keys, done: &Done) -> Result<Value, AllocError>
    ensures { IfOk result (λ v. view v ≡ done_data keys.now done.now) }
{
    match done {
        Done::NodeAdded { node } => node_value(alloc, &keys.node(*node), node.0),
        Done::CustomerAdded { customer } => {
            customer_value(alloc, customer.0, &keys.customer(*customer))
        }
        Done::Offer(offer) => offer_value(alloc, keys, offer),
        Done::Committed { segment } => segment_value(alloc, segment.0, "live"),
        Done::Deleted { segment } => segment_value(alloc, segment.0, "deleted"),
    }
}

/// The JSON of an error that has no more than a name.
pub(crate) fn error_value(alloc: Global, name: &str) -> Result<Value, AllocError>
    ensures { IfOk result (λ v. view v ≡ error_data name.now) }
{
    json!(in alloc; {"error": name})
}

fn result_value(alloc: Global, how: &str) -> Result<Value, AllocError>
    ensures { IfOk result (λ v. view v ≡ result_data how.now) }
{
    json!(in alloc; {"result": how})
}

fn amount_value(alloc: Global, amount: u64, how: &str) -> Result<Value, AllocError>
    ensures { IfOk result (λ v. view v ≡ amount_data amount how.now) }
{
    json!(in alloc; {"amount": amount, "result": how})
}

fn closed_value(alloc: Global, month: Month, fresh: bool) -> Result<Value, AllocError>
    ensures { IfOk result (λ v. view v ≡ closed_data fresh (month_text month.0)) }
{
    let month = text_of_month(alloc, month)?;
    json!(in alloc; {"fresh": fresh, "month": month})
}

fn rates_value(alloc: Global, month: Month) -> Result<Value, AllocError>
    ensures { IfOk result (λ v. view v ≡ rates_data (month_text month.0)) }
{
    let month = text_of_month(alloc, month)?;
    json!(in alloc; {"month": month, "result": "rates-set"})
}

fn segment_value(alloc: Global, segment: u64, state: &str) -> Result<Value, AllocError>
    ensures { IfOk result (λ v. view v ≡ segment_data segment state.now) }
{
    json!(in alloc; {"segment": segment, "state": state})
}

fn node_value(alloc: Global, key: &[u8], node: u32) -> Result<Value, AllocError>
    ensures { IfOk result (λ v. view v ≡ node_data (encode_lower key.now) node) }
{
    let key = hex_text(alloc, key)?;
    json!(in alloc; {"key": key, "node": node})
}

fn customer_value(alloc: Global, customer: u32, key: &[u8]) -> Result<Value, AllocError>
    ensures { IfOk result (λ v. view v ≡ customer_data customer (encode_lower key.now)) }
{
    let key = hex_text(alloc, key)?;
    json!(in alloc; {"customer": customer, "key": key})
}

/// The bytes in hex digits of lower case.
pub(crate) fn hex_text(alloc: Global, bytes: &[u8]) -> Result<String, AllocError>
    ensures { IfOk result (λ text. string_bytes text ≡ encode_lower bytes.now) }
{
    hex::encode(alloc, bytes)
}

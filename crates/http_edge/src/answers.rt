// The bytes of answers.
ghost use Rattle.std.specs.Prelude.{◌≡◌, true, IfOk};
ghost use Rattle.machine_calls.specs.Replies.{is_sayable};
ghost use Rattle.serde_json.specs.View.{view};
ghost use Rattle.http_edge.specs.Answers.{answer_text, reply_status, edge_text, edge_status, edge_data, field_name, field_data};
ghost use Rattle.http_edge.specs.Refusals.{refusal_status};

use crate::errors::EdgeErr;
use crate::replies::{error_value, reply_value};
use http::StatusCode;
use http_parts::message_of;
use machine_calls::{Refusal, Reply};
use order_limits::Keys;
use sat_base::{Bytes, NoMemory};
use serde_json::{Value, json};
use std::alloc::{AllocError, Global};

/// The bytes of the answer to a reply (RFC 9112, RFC 8259), which is one that callers are told.
pub fn answer(alloc: Global, keys: &Keys, reply: &Reply) -> Result<Bytes, NoMemory>
    requires { is_sayable reply.now ≡ true }
    ensures { IfOk result (λ bytes. bytes ≡ answer_text keys.now reply.now) }
{
    let value = reply_value(alloc, keys, reply)?;
    Ok(message_of(alloc, status_of(reply), &value)?)
}

/// The bytes of the answer to an error of the edge (RFC 9112, RFC 8259).
pub fn edge_answer(alloc: Global, error: &EdgeErr) -> Result<Bytes, NoMemory>
    ensures { IfOk result (λ bytes. bytes ≡ edge_text error.now) }
{
    let value = edge_value(alloc, *error)?;
    Ok(message_of(alloc, status_of_edge(*error), &value)?)
}

/// The bytes of the answer where memory runs out. It takes none.
pub fn memory_answer() -> &'static [u8]
    ensures { result.now ≡ edge_text EdgeErr.NoMemory }
{
    b"HTTP/1.1 507 Insufficient Storage\r\ncontent-type: application/json\r\ncontent-length: 18\r\nconnection: close\r\n\r\n{\"error\":\"memory\"}"
}

fn status_of(reply: &Reply) -> StatusCode
    ensures { result ≡ reply_status reply.now }
{
    match reply {
        Reply::Refused(refusal) => status_of_refusal(refusal),
        Reply::StoreFault { .. } => StatusCode::SERVICE_UNAVAILABLE,
        Reply::NoMemory => StatusCode::INSUFFICIENT_STORAGE,
        _ => StatusCode::OK,
    }
}

fn status_of_refusal(refusal: &Refusal) -> StatusCode
    ensures { result ≡ refusal_status refusal.now }
{
    match refusal {
        Refusal::Stopped => StatusCode::SERVICE_UNAVAILABLE,
        _ => StatusCode::CONFLICT,
    }
}

fn status_of_edge(error: EdgeErr) -> StatusCode
    ensures { result ≡ edge_status error }
{
    match error {
        EdgeErr::Head
        | EdgeErr::Short
        | EdgeErr::Transfer
        | EdgeErr::BadLength
        | EdgeErr::ShortBody
        | EdgeErr::Json => StatusCode::BAD_REQUEST,
        EdgeErr::Key => StatusCode::UNAUTHORIZED,
        EdgeErr::NoRoute => StatusCode::NOT_FOUND,
        EdgeErr::BadMethod => StatusCode::METHOD_NOT_ALLOWED,
        EdgeErr::NoLength => StatusCode::LENGTH_REQUIRED,
        EdgeErr::BodySize => StatusCode::PAYLOAD_TOO_LARGE,
        EdgeErr::Field { .. } => StatusCode::UNPROCESSABLE_ENTITY,
        EdgeErr::HeadSize => StatusCode::REQUEST_HEADER_FIELDS_TOO_LARGE,
        EdgeErr::NoMemory => StatusCode::INSUFFICIENT_STORAGE,
    }
}

// The JSON of an error of the edge.
fn edge_value(alloc: Global, error: EdgeErr) -> Result<Value, AllocError>
    ensures { IfOk result (λ v. view v ≡ edge_data error) }
{
    match error {
        EdgeErr::Head => error_value(alloc, "head"),
        EdgeErr::Short | EdgeErr::ShortBody => error_value(alloc, "short"),
        EdgeErr::HeadSize => error_value(alloc, "head-size"),
        EdgeErr::NoRoute => error_value(alloc, "no-route"),
        EdgeErr::BadMethod => error_value(alloc, "method"),
        EdgeErr::Key => error_value(alloc, "key"),
        EdgeErr::Transfer => error_value(alloc, "transfer"),
        EdgeErr::NoLength | EdgeErr::BadLength => error_value(alloc, "length"),
        EdgeErr::BodySize => error_value(alloc, "body-size"),
        EdgeErr::Json => error_value(alloc, "json"),
        EdgeErr::Field { place } => field_value(alloc, name_of_field(place)),
        EdgeErr::NoMemory => error_value(alloc, "memory"),
    }
}

fn field_value(alloc: Global, name: &str) -> Result<Value, AllocError>
    ensures { IfOk result (λ v. view v ≡ field_data name.now) }
{
    json!(in alloc; {"error": "field", "field": name})
}

fn name_of_field(place: u8) -> &'static str
    ensures { result.now ≡ field_name place }
{
    match place {
        1 => "request",
        2 => "len",
        3 => "pieces",
        4 => "order",
        5 => "free",
        6 => "addr",
        7 => "port",
        8 => "month",
        9 => "get",
        10 => "audit",
        11 => "repair",
        _ => "storage",
    }
}

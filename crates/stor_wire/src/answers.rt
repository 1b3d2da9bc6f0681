// The bytes of answers.
ghost use Rattle.std.specs.Prelude.{◌≡◌, IfOk};
ghost use Rattle.http_parts.specs.Messages.{message};
ghost use Rattle.serde_json.specs.View.{view};
ghost use Rattle.stor_wire.specs.Answers.{answer_status, answer_text, error_data, kept_data, share_text, taken_status};

use crate::refusals::{error_value, refusal_value};
use http::StatusCode;
use http_parts::message_of;
use order_uses::TakeErr;
use sat_base::{Bytes, Items, NoMemory};
use serde_json::{Value, json};
use std::alloc::{AllocError, Global};

/// What a node answers.
#[derive(Debug, PartialEq, Eq, Drop)]
pub enum Answer {
    /// The piece is kept.
    Kept,
    /// These are the bytes that were asked for.
    Share(Bytes),
    /// The piece isn't held.
    Missing,
    /// Nothing is given or kept, for this.
    Refused(TakeErr),
    /// No request stands at the front of the bytes.
    Head,
    /// The pieces failed.
    Store,
    /// Memory ran out.
    NoMemory,
}

impl Answer {
    /// The status (RFC 9110, 15): 200, 400 of `Head`, 403 of a refusal, 404 of `Missing`; 503 where the pieces failed or what
    /// keeps the orders did, and 507 where memory ran out.
    pub fn status(&self) -> u16
        ensures { result ≡ answer_status self.now }
    {
        match self {
            Answer::Kept | Answer::Share(_) => 200,
            Answer::Missing => 404,
            Answer::Refused(err) => status_of(*err).as_u16(),
            Answer::Head => 400,
            Answer::Store => 503,
            Answer::NoMemory => 507,
        }
    }
}

/// The bytes of an answer (RFC 9112, 2.1): a status line, three headers, and bytes of a piece or a text in JSON (RFC 8259).
pub fn answer_bytes(alloc: Global, answer: &Answer) -> Result<Bytes, NoMemory>
    ensures { IfOk result (λ bytes. bytes ≡ answer_text answer.now) }
{
    match answer {
        Answer::Kept => kept_answer(alloc),
        Answer::Share(bytes) => share_answer(alloc, bytes.as_slice()),
        Answer::Missing => error_answer(alloc, StatusCode::NOT_FOUND, "missing"),
        Answer::Refused(err) => refused_answer(alloc, *err),
        Answer::Head => error_answer(alloc, StatusCode::BAD_REQUEST, "head"),
        Answer::Store => error_answer(alloc, StatusCode::SERVICE_UNAVAILABLE, "store"),
        Answer::NoMemory => error_answer(alloc, StatusCode::INSUFFICIENT_STORAGE, "memory"),
    }
}

/// The bytes of the answer where memory runs out. It takes none.
pub fn memory_answer() -> &'static [u8]
    ensures { result.now ≡ answer_text Answer.NoMemory }
{
    b"HTTP/1.1 507 Insufficient Storage\r\ncontent-type: application/json\r\ncontent-length: 18\r\nconnection: close\r\n\r\n{\"error\":\"memory\"}"
}

fn kept_answer(alloc: Global) -> Result<Bytes, NoMemory>
    ensures { IfOk result (λ bytes. bytes ≡ answer_text Answer.Kept) }
{
    let value = kept_value(alloc)?;
    Ok(message_of(alloc, StatusCode::OK, &value)?)
}

// The JSON that says that a piece is kept.
fn kept_value(alloc: Global) -> Result<Value, AllocError>
    ensures { IfOk result (λ v. view v ≡ kept_data) }
{
    json!(in alloc; {"result": "kept"})
}

fn share_answer(alloc: Global, bytes: &[u8]) -> Result<Bytes, NoMemory>
    ensures { IfOk result (λ text. text ≡ share_text bytes.now) }
{
    let size = bytes.len();
    let head = format!(in alloc;
        "HTTP/1.1 200 OK\r\ncontent-type: application/octet-stream\r\ncontent-length: {size}\r\nconnection: close\r\n\r\n"
    )?;
    let mut text = head.into_bytes();
    text.extend_from_slice(bytes)?;
    Ok(Items::of(text))
}

fn error_answer(alloc: Global, status: StatusCode, name: &str) -> Result<Bytes, NoMemory>
    ensures { IfOk result (λ bytes. bytes ≡ message status (error_data name.now)) }
{
    let value = error_value(alloc, name)?;
    Ok(message_of(alloc, status, &value)?)
}

fn refused_answer(alloc: Global, err: TakeErr) -> Result<Bytes, NoMemory>
    ensures { IfOk result (λ bytes. bytes ≡ answer_text (Answer.Refused err)) }
{
    let value = refusal_value(alloc, err)?;
    Ok(message_of(alloc, status_of(err), &value)?)
}

fn status_of(err: TakeErr) -> StatusCode
    ensures { result ≡ taken_status err }
{
    match err {
        TakeErr::Fault { .. } => StatusCode::SERVICE_UNAVAILABLE,
        TakeErr::NoMemory => StatusCode::INSUFFICIENT_STORAGE,
        _ => StatusCode::FORBIDDEN,
    }
}

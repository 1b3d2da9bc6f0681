// Messages that answer in JSON.
ghost use Rattle.std.specs.Prelude.{◌≡◌, false, string_bytes, IfOk, unwrap_or, []};
ghost use Rattle.http.specs.StatusCode.{reason_phrase};
ghost use Rattle.serde_json.specs.View.{view};
ghost use Rattle.serde_json.specs.Written.{has_float};
ghost use Rattle.http_parts.specs.Messages.{message, parts_text};

use http::StatusCode;
use sat_base::{Bytes, Items};
use serde_json::Value;
use std::alloc::{AllocError, Global};

/// The bytes of an answer of that status, whose body is the value's compact text: a status line, three headers (content-type,
/// content-length, and connection, which is closed behind it) and the body (RFC 9112, 2.1; RFC 9110, 15; RFC 8259). The
/// value has no float. Its one error is want of memory.
pub fn message_of(alloc: Global, status: StatusCode, value: &Value) -> Result<Bytes, AllocError>
    requires { has_float (view value.now) ≡ false }
    ensures { IfOk result (λ bytes. bytes ≡ message status (view value.now)) }
{
    let body = value.to_string(alloc)?;
    let text = text_of(
        alloc,
        status.as_u16(),
        phrase_of(status),
        body.len(),
        body.as_str(),
    )?;
    Ok(Items::of(text.into_bytes()))
}

// The phrase of a status.
fn phrase_of(status: StatusCode) -> &'static str
    ensures { result.now ≡ unwrap_or (reason_phrase status) [] }
{
    match status.canonical_reason() {
        Some(phrase) => phrase,
        None => "",
    }
}

// The text of a message's parts.
fn text_of(
    alloc: Global,
    code: u16,
    phrase: &str,
    size: usize,
    body: &str,
) -> Result<String, AllocError>
    ensures { IfOk result (λ s. string_bytes s ≡ parts_text code phrase.now size body.now) }
{
    let mut text = format!(in alloc; "HTTP/1.1 {code} ")?;
    text.push_str(phrase)?;
    let headers = format!(in alloc;
        "\r\ncontent-type: application/json\r\ncontent-length: {size}\r\nconnection: close\r\n\r\n"
    )?;
    text.push_str(&headers)?;
    text.push_str(body)?;
    Ok(text)
}

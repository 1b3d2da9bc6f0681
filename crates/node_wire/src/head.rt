// What the head of an answer says.
ghost use Rattle.std.specs.Prelude.{◌≡◌, All, length, map, codes};
ghost use Rattle.httparse.specs.Spans.{IsHeaderWithin, header_bytes};
ghost use Rattle.http_parts.specs.Headers.{values_named};
ghost use Rattle.node_wire.specs.Heard.{of_status, of_lengths, IsHeadOf};

use http_parts::{MAX_HEAD, MAX_LINES, count_named, first_named};
use httparse::Status;
use httparse::spans::{EMPTY_HEADER_SPAN, HeaderSpan, parse_response};
use sat_base::{is_numeral, value_up_to};

/// What a node is asked.
#[derive(Clone, Copy)]
pub enum Question {
    /// To give at most so many bytes of a piece.
    Fetch { len: u64 },
    /// To keep a piece.
    Put,
}

/// What a head says of the answer.
#[derive(Clone, Copy)]
pub enum Says {
    NoAnswer,
    Missing,
    Kept,
    /// The body is longer than asked.
    Long,
    /// The body has so many bytes.
    Body(usize),
}

/// The head that stands at the front of the bytes: how long it is, and what it says. None where none stands there.
pub(crate) fn head_of(bytes: &[u8], question: Question) -> Option<(usize, Says)>
    ensures { IsHeadOf question bytes.now result }
{
    let mut headers = [EMPTY_HEADER_SPAN; MAX_LINES];
    match parse_response(bytes, &mut headers) {
        Ok(Status::Complete(spans)) => {
            if spans.len > MAX_HEAD {
                return None;
            }
            let says = of_head(spans.code, bytes, &headers[..spans.headers], question);
            Some((spans.len, says))
        }
        Ok(Status::Partial) => None,
        Err(_) => None,
    }
}

// What a status and headers say.
fn of_head(code: u16, bytes: &[u8], headers: &[HeaderSpan], question: Question) -> Says
    requires { All (IsHeaderWithin (length bytes.now)) headers.now }
    ensures { result ≡ of_status question code (map (header_bytes bytes.now) headers.now) }
{
    match (question, code) {
        (Question::Fetch { len }, 200) => of_length(bytes, headers, len),
        (Question::Fetch { .. }, 404) => Says::Missing,
        (Question::Put, 200) => Says::Kept,
        _ => Says::NoAnswer,
    }
}

// What the headers say of the length.
fn of_length(bytes: &[u8], headers: &[HeaderSpan], len: u64) -> Says
    requires { All (IsHeaderWithin (length bytes.now)) headers.now }
    ensures { result ≡ of_lengths len (values_named (codes "content-length") (map (header_bytes bytes.now) headers.now)) }
{
    let Some(length) = first_named(bytes, headers, b"content-length") else {
        return Says::NoAnswer;
    };
    if count_named(bytes, headers, b"content-length") != 1 {
        return Says::NoAnswer;
    }
    if !is_numeral(length) {
        return Says::NoAnswer;
    }
    match value_up_to(length, len) {
        Some(size) => Says::Body(size as usize),
        None => Says::Long,
    }
}

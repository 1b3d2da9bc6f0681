// How much of a request has come.
ghost use Rattle.std.specs.Prelude.{All, length};
ghost use Rattle.httparse.specs.Spans.{IsHeaderWithin};

use http_parts::{MAX_HEAD, MAX_LINES, count_named, first_named};
use httparse::Status;
use httparse::spans::{EMPTY_HEADER_SPAN, HeaderSpan, parse_request};
use sat_base::{is_numeral, value_up_to};

/// How much of a request has come.
#[derive(Clone, Copy, Debug, PartialEq, Eq)]
pub(crate) enum Extent {
    /// Not even its head.
    Part,
    /// Its head, which may decide it, and not its whole body.
    Head,
    /// All of it, or so much that no bytes that can follow make a request.
    Whole,
}

/// How much of a request these first bytes of a connection are, whose body may have so many bytes.
pub(crate) fn extent_of(bytes: &[u8], most: u64) -> Extent {
    let mut headers = [EMPTY_HEADER_SPAN; MAX_LINES];
    match parse_request(bytes, &mut headers) {
        Ok(Status::Complete(spans)) => {
            let body = bytes.len().saturating_sub(spans.len);
            if body >= body_len(bytes, &headers[..spans.headers], most) {
                Extent::Whole
            } else {
                Extent::Head
            }
        }
        Ok(Status::Partial) | Err(httparse::Error::TooManyHeaders) => {
            if bytes.len() >= MAX_HEAD {
                Extent::Whole
            } else {
                Extent::Part
            }
        }
        Err(_) => Extent::Whole,
    }
}

// How many bytes of a body a head tells of. Where it is refused for what it tells, none are read.
fn body_len(bytes: &[u8], headers: &[HeaderSpan], most: u64) -> usize
    requires { All (IsHeaderWithin (length bytes.now)) headers.now }
{
    if count_named(bytes, headers, b"content-length") != 1 {
        return 0;
    }
    let Some(length) = first_named(bytes, headers, b"content-length") else {
        return 0;
    };
    if !is_numeral(length) {
        return 0;
    }
    match value_up_to(length, most) {
        Some(length) => length as usize,
        None => 0,
    }
}

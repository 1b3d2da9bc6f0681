// One request of a connection.
ghost use Rattle.std.specs.Prelude.{◌≡◌, ◌≤◌, ℕ, List, ◌++◌, length, drop, Some, IfOk};
ghost use Rattle.httparse.specs.Grammar.{RequestHead};
ghost use Rattle.httparse.specs.Spans.{IsRequestAt, IsRequestWithin};
ghost use Rattle.sat_base.specs.Streams.{Took};
ghost use Rattle.http_parts.specs.Bodies.{MayReadBody};
ghost use Rattle.http_parts.specs.Heads.{max_head, max_lines};
ghost use Rattle.http_edge.specs.Demands.{max_body};
ghost use Rattle.http_edge.specs.Requests.{Outcome, BehindHead, IsBodyOutcome, MayRead, MayReadBehind, max_request, unread_as, failed_request};
ghost use Rattle.http_edge.specs.Wishes.{IsRouteWithin, IsWishWithin};

use crate::demand::{Demand, demand_of};
use crate::errors::{EdgeErr, ReadErr};
use crate::fields::wish_of;
use crate::routes::Route;
use http_parts::{BodyErr, HeadEnd, MAX_HEAD, MAX_LINES, fetch_body, read_head};
use httparse::spans::{EMPTY_HEADER_SPAN, HeaderSpan, RequestSpans};
use machine_calls::Wish;
use order_limits::Keys;
use sat_base::Source;
use std::alloc::Global;

/// Reads one request: a head of at most 8192 bytes and 64 header lines (RFC 9112), and then just the rest of
/// its body (RFC 8259), of at most 65536 bytes. Where the source tells its bytes, the answer is what all bytes
/// that were left say. Each read was made while the bytes so far didn't decide, or for missing bytes of a body. Months and
/// rates of a wish are such as records have.
pub fn read_request<S: Source>(alloc: Global, source: &mut S, keys: &Keys) -> Result<Wish, ReadErr>
    ensures outcome { (all : List ℕ) → (S.about source.old).left ≡ Some all → Outcome keys.now all result }
    ensures within { IfOk result IsWishWithin }
    ensures took { (bytes : List ℕ) × Took (MayRead keys.now) bytes 1 (failed_request result)
        (S.about source.old) (S.about source.new) × (length bytes ≤ max_request) }
{
    let Ok(mut buf) = vec![in alloc; 0u8; MAX_HEAD] else {
        return Err(ReadErr::Edge(EdgeErr::NoMemory));
    };
    let mut headers = [EMPTY_HEADER_SPAN; MAX_LINES];
    read_into(alloc, source, keys, &mut buf, &mut headers)
}

// Reads one request, its head into the buffers.
fn read_into<S: Source>(
    alloc: Global,
    source: &mut S,
    keys: &Keys,
    buf: &mut [u8],
    headers: &mut [HeaderSpan],
) -> Result<Wish, ReadErr>
    requires size { length buf.now ≡ max_head }
    requires lines { length headers.now ≡ max_lines }
    ensures outcome { (all : List ℕ) → (S.about source.old).left ≡ Some all → Outcome keys.now all result }
    ensures within { IfOk result IsWishWithin }
    ensures took { (bytes : List ℕ) × Took (MayRead keys.now) bytes 1 (failed_request result)
        (S.about source.old) (S.about source.new) × (length bytes ≤ max_request) }
{
    let read = read_head(source, buf, headers);
    match read.end {
        HeadEnd::Whole(spans) => behind_head(alloc, source, keys, &buf[..read.got], headers, spans),
        HeadEnd::Never => Err(ReadErr::Edge(EdgeErr::Head)),
        HeadEnd::Ended => Err(ReadErr::Edge(EdgeErr::Short)),
        HeadEnd::Full => Err(ReadErr::Edge(EdgeErr::HeadSize)),
        HeadEnd::Fault => Err(ReadErr::Fault),
    }
}

// What the head and the bytes behind it say.
fn behind_head<S: Source>(
    alloc: Global,
    source: &mut S,
    keys: &Keys,
    read: &[u8],
    headers: &[HeaderSpan],
    spans: RequestSpans,
) -> Result<Wish, ReadErr>
    requires { IsRequestWithin read.now headers.now spans }
    ensures outcome { (left : List ℕ) → (S.about source.old).left ≡ Some left → (h : RequestHead)
        → IsRequestAt read.now headers.now spans h → BehindHead keys.now h (drop spans.len read.now ++ left) result }
    ensures within { IfOk result IsWishWithin }
    ensures took { (h : RequestHead) → IsRequestAt read.now headers.now spans h
        → (bytes : List ℕ) × Took (λ taken asked. MayReadBehind keys.now h (drop spans.len read.now ++ taken) asked) bytes 1
        (failed_request result) (S.about source.old) (S.about source.new) × (length bytes ≤ max_body) }
{
    match demand_of(keys, read, headers, spans) {
        Demand::Refused(e) => Err(ReadErr::Edge(e)),
        Demand::Statement(node, month) => Ok(Wish::Statement { node, month }),
        Demand::Body(route, size) => with_body(alloc, source, route, &read[spans.len..], size),
    }
}

// What the body says.
fn with_body<S: Source>(
    alloc: Global,
    source: &mut S,
    route: Route,
    read: &[u8],
    size: usize,
) -> Result<Wish, ReadErr>
    requires size { size ≤ max_body }
    requires route { IsRouteWithin route }
    ensures outcome { (left : List ℕ) → (S.about source.old).left ≡ Some left → IsBodyOutcome route size (read.now ++ left) result }
    ensures within { IfOk result IsWishWithin }
    ensures took { (bytes : List ℕ) × Took (MayReadBody size read.now) bytes 1 (failed_request result)
        (S.about source.old) (S.about source.new) × (length bytes ≤ max_body) }
{
    match fetch_body(alloc, source, read, size) {
        Ok(body) => match wish_of(alloc, route, &body) {
            Ok(wish) => Ok(wish),
            Err(e) => Err(ReadErr::Edge(e)),
        },
        Err(e) => Err(unread(e)),
    }
}

// The error where there is no body.
fn unread(e: BodyErr) -> ReadErr
    ensures { result ≡ unread_as e }
{
    match e {
        BodyErr::Short => ReadErr::Edge(EdgeErr::ShortBody),
        BodyErr::Fault => ReadErr::Fault,
        BodyErr::NoMemory => ReadErr::Edge(EdgeErr::NoMemory),
    }
}

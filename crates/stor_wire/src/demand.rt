// What a head alone asks.
ghost use Rattle.std.specs.Prelude.{All, length, map};
ghost use Rattle.httparse.specs.Grammar.{RequestHead};
ghost use Rattle.httparse.specs.Spans.{IsHeaderWithin, IsRequestAt, IsRequestWithin, header_bytes};
ghost use Rattle.stor_wire.specs.Requests.{Demands, FoundBy, IsFetch, IsPut, IsSmall, IsWantedAs};

use crate::piece_path::piece_of;
use crate::request::ReadErr;
use crate::values::{length_named, number_named, order_named};
use http_parts::first_named;
use httparse::spans::{HeaderSpan, RequestSpans};
use order_uses::Wanted;
use sat_base::limits::PIECE;
use std::alloc::Global;

/// What a head alone asks.
#[derive(Debug, PartialEq, Eq, Drop)]
pub(crate) enum Demand {
    /// To give the bytes of a piece from this offset on.
    Range(Wanted, u64),
    /// To keep a piece, which is the body.
    Body(Wanted),
}

/// What a head asks, by its method, its path and its headers.
pub(crate) fn demand_of(
    alloc: Global,
    buf: &[u8],
    headers: &[HeaderSpan],
    spans: RequestSpans,
) -> Result<Demand, ReadErr>
    requires { IsRequestWithin buf.now headers.now spans }
    ensures small { IsSmall result }
    ensures says { (h : RequestHead) → IsRequestAt buf.now headers.now spans h → FoundBy (Demands h) result }
{
    let method = spans.method.of(buf);
    let path = spans.path.of(buf);
    let headers = &headers[..spans.headers];
    if method == b"GET".as_slice() {
        let (wanted, offset) = fetch_of(alloc, path, buf, headers)?;
        return Ok(Demand::Range(wanted, offset));
    }
    if method == b"PUT".as_slice() {
        return Ok(Demand::Body(put_of(alloc, path, buf, headers)?));
    }
    Err(ReadErr::Head)
}

// Which range of which piece is to be given, and the offset that it begins at.
fn fetch_of(
    alloc: Global,
    path: &[u8],
    buf: &[u8],
    headers: &[HeaderSpan],
) -> Result<(Wanted, u64), ReadErr>
    requires { All (IsHeaderWithin (length buf.now)) headers.now }
    ensures { FoundBy (λ found. IsFetch path.now (map (header_bytes buf.now) headers.now) found.0 found.1) result }
{
    let Some(offset) = number_named(buf, headers, b"x-offset", u64::MAX) else {
        return Err(ReadErr::Head);
    };
    let Some(len) = number_named(buf, headers, b"x-length", PIECE) else {
        return Err(ReadErr::Head);
    };
    let wanted = wanted_of(alloc, path, buf, headers, false, len)?;
    Ok((wanted, offset))
}

// Which piece is to be kept, and how long it is.
fn put_of(alloc: Global, path: &[u8], buf: &[u8], headers: &[HeaderSpan]) -> Result<Wanted, ReadErr>
    requires { All (IsHeaderWithin (length buf.now)) headers.now }
    ensures { FoundBy (IsPut path.now (map (header_bytes buf.now) headers.now)) result }
{
    let Some(len) = length_named(buf, headers, PIECE) else {
        return Err(ReadErr::Head);
    };
    wanted_of(alloc, path, buf, headers, true, len)
}

// So many bytes of the piece of a path, under the order of the headers.
fn wanted_of(
    alloc: Global,
    path: &[u8],
    buf: &[u8],
    headers: &[HeaderSpan],
    put: bool,
    len: u64,
) -> Result<Wanted, ReadErr>
    requires { All (IsHeaderWithin (length buf.now)) headers.now }
    ensures { FoundBy (IsWantedAs put len path.now (map (header_bytes buf.now) headers.now)) result }
{
    let Some((segment, index)) = piece_of(path) else {
        return Err(ReadErr::Head);
    };
    if first_named(buf, headers, b"transfer-encoding").is_some() {
        return Err(ReadErr::Head);
    }
    let order = order_named(alloc, buf, headers)?;
    Ok(Wanted {
        put,
        segment,
        index,
        len,
        order,
    })
}

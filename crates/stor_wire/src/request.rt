// One request of a connection.
ghost use Rattle.std.specs.Prelude.{◌≡◌, ◌+◌, ◌≤◌, ℕ, List, ◌++◌, length, drop, Some};
ghost use Rattle.httparse.specs.Grammar.{RequestHead};
ghost use Rattle.httparse.specs.Spans.{IsRequestAt, IsRequestWithin};
ghost use Rattle.sat_base.specs.Streams.{Took};
ghost use Rattle.http_parts.specs.Heads.{max_head, max_lines};
ghost use Rattle.stor_wire.specs.Requests.{Begins, IsRead, IsReadBehind, IsReadPiece, MayRead, MayReadBehind, Outcome, failed_request, max_piece, max_request};
ghost use Rattle.stor_wire.specs.declared.request.Request.{Request};

use crate::demand::{Demand, demand_of};
use http_parts::{BodyErr, HeadEnd, MAX_HEAD, MAX_LINES, fetch_body, read_head};
use httparse::spans::{EMPTY_HEADER_SPAN, HeaderSpan, RequestSpans};
use order_uses::Wanted;
use sat_base::{Bytes, Items, Source};
use std::alloc::Global;

/// What a connection asks of a node.
#[derive(Debug, PartialEq, Eq, Drop)]
pub enum Request {
    /// To give the bytes of a piece from an offset on.
    Fetch { wanted: Wanted, offset: u64 },
    /// To keep these bytes as a piece.
    Put { wanted: Wanted, piece: Bytes },
}

/// Why a connection asks nothing.
#[derive(Clone, Copy, Debug, PartialEq, Eq)]
pub enum ReadErr {
    /// A read failed.
    Fault,
    /// No request stands at the front of its bytes.
    Head,
    /// Memory ran out.
    NoMemory,
}

/// Reads one request: a head of at most 8192 bytes and 64 header lines (RFC 9112), and then just the rest of the piece that is
/// to be kept, of at most 4194304 bytes. Where the source tells its bytes, the answer is what all bytes that were left say.
///
/// `Head` says of the bytes that were read that no bytes that can follow make a request of them, or that the source ended
/// before one was whole, or that they are 8192 and no head of at most 64 lines is whole. A failed read is counted, and
/// nothing else. `NoMemory` has no cause that a clause names.
pub fn read_request<S: Source>(alloc: Global, source: &mut S) -> Result<Request, ReadErr>
    ensures outcome { (all : List ℕ) → (S.about source.old).left ≡ Some all → Outcome all result }
    ensures took { (bytes : List ℕ) × Took MayRead bytes 1 (failed_request result) (S.about source.old) (S.about source.new)
        × (length bytes ≤ max_request) × IsRead bytes (S.about source.new).left result }
{
    let Ok(mut buf) = vec![in alloc; 0u8; MAX_HEAD] else {
        return Err(ReadErr::NoMemory);
    };
    let mut headers = [EMPTY_HEADER_SPAN; MAX_LINES];
    read_into(alloc, source, &mut buf, &mut headers)
}

// Reads one request, its head into the buffers.
fn read_into<S: Source>(
    alloc: Global,
    source: &mut S,
    buf: &mut [u8],
    headers: &mut [HeaderSpan],
) -> Result<Request, ReadErr>
    requires size { length buf.now ≡ max_head }
    requires lines { length headers.now ≡ max_lines }
    ensures { (bytes : List ℕ) × Took MayRead bytes 1 (failed_request result) (S.about source.old) (S.about source.new)
        × (length bytes ≤ max_request) × IsRead bytes (S.about source.new).left result }
{
    let read = read_head(source, buf, headers);
    match read.end {
        HeadEnd::Whole(spans) => behind_head(alloc, source, &buf[..read.got], headers, spans),
        HeadEnd::Never | HeadEnd::Ended | HeadEnd::Full => Err(ReadErr::Head),
        HeadEnd::Fault => Err(ReadErr::Fault),
    }
}

// What the head and the bytes behind it ask.
fn behind_head<S: Source>(
    alloc: Global,
    source: &mut S,
    read: &[u8],
    headers: &[HeaderSpan],
    spans: RequestSpans,
) -> Result<Request, ReadErr>
    requires { IsRequestWithin read.now headers.now spans }
    ensures { (h : RequestHead) → IsRequestAt read.now headers.now spans h
        → (bytes : List ℕ) × Took (λ taken asked. MayReadBehind h (drop spans.len read.now ++ taken) asked) bytes 1
        (failed_request result) (S.about source.old) (S.about source.new) × (length bytes ≤ max_piece)
        × IsReadBehind h (drop spans.len read.now ++ bytes) (S.about source.new).left result }
{
    match demand_of(alloc, read, headers, spans)? {
        Demand::Range(wanted, offset) => Ok(Request::Fetch { wanted, offset }),
        Demand::Body(wanted) => with_piece(alloc, source, wanted, &read[spans.len..]),
    }
}

// With the piece that is to be kept, some of whose bytes may have come with the head.
fn with_piece<S: Source>(
    alloc: Global,
    source: &mut S,
    wanted: Wanted,
    read: &[u8],
) -> Result<Request, ReadErr>
    requires { wanted.len ≤ max_piece }
    ensures { (bytes : List ℕ) × Took (λ taken asked. length read.now + length taken + asked ≤ wanted.len) bytes 1
        (failed_request result) (S.about source.old) (S.about source.new) × (length bytes ≤ max_piece)
        × IsReadPiece wanted (read.now ++ bytes) (S.about source.new).left result }
{
    match fetch_body(alloc, source, read, wanted.len as usize) {
        Ok(piece) => Ok(Request::Put {
            wanted,
            piece: Items::of(piece),
        }),
        Err(BodyErr::Short) => Err(ReadErr::Head),
        Err(BodyErr::Fault) => Err(ReadErr::Fault),
        Err(BodyErr::NoMemory) => Err(ReadErr::NoMemory),
    }
}

/// The law of requests: bytes begin with one request at most.
pub fn requests_are_one()
    ensures { (bytes : List ℕ) (a b : Request) → Begins bytes a → Begins bytes b → a ≡ b }
{}

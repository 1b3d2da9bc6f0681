// What the headers of a request say.
ghost use Rattle.std.specs.Prelude.{◌≡◌, ◌≤◌, All, length, map, IfSome};
ghost use Rattle.httparse.specs.Spans.{IsHeaderWithin, header_bytes};
ghost use Rattle.stor_wire.specs.Requests.{FoundBy};
ghost use Rattle.stor_wire.specs.Values.{length_named, number_named, order_named};

use crate::request::ReadErr;
use http_parts::{count_named, first_named};
use httparse::spans::HeaderSpan;
use sat_base::{Bytes, Items, number};
use std::alloc::Global;

/// The number that the first header of a name says, if it is at most so great.
pub(crate) fn number_named(
    buf: &[u8],
    headers: &[HeaderSpan],
    name: &[u8],
    most: u64,
) -> Option<u64>
    requires { All (IsHeaderWithin (length buf.now)) headers.now }
    ensures { result ≡ number_named name.now most (map (header_bytes buf.now) headers.now) }
{
    number(first_named(buf, headers, name)?, most)
}

/// How many bytes Content-Length says that there are, where it stands once and says at most so many.
pub(crate) fn length_named(buf: &[u8], headers: &[HeaderSpan], most: u64) -> Option<u64>
    requires { All (IsHeaderWithin (length buf.now)) headers.now }
    ensures value { result ≡ length_named most (map (header_bytes buf.now) headers.now) }
    ensures small { IfSome result (λ n. n ≤ most) }
{
    let length = first_named(buf, headers, b"content-length")?;
    if count_named(buf, headers, b"content-length") != 1 {
        return None;
    }
    number(length, most)
}

/// The bytes that the first `x-order` header says, in hex digits of either case.
pub(crate) fn order_named(
    alloc: Global,
    buf: &[u8],
    headers: &[HeaderSpan],
) -> Result<Bytes, ReadErr>
    requires { All (IsHeaderWithin (length buf.now)) headers.now }
    ensures { FoundBy (λ order. order_named (map (header_bytes buf.now) headers.now) ≡ Some order) result }
{
    let Some(text) = first_named(buf, headers, b"x-order") else {
        return Err(ReadErr::Head);
    };
    match hex::decode(alloc, text) {
        Ok(bytes) => Ok(Items::of(bytes)),
        Err(hex::FromHexError::OutOfMemory) => Err(ReadErr::NoMemory),
        Err(_) => Err(ReadErr::Head),
    }
}

// A whole body.
ghost use Rattle.std.specs.Prelude.{◌≡◌, ◌+◌, ◌≤◌, ℕ, List, ◌++◌, length, max, Some};
ghost use Rattle.sat_base.specs.Streams.{Took, failed_filling, idle_reads};
ghost use Rattle.http_parts.specs.Bodies.{IsBody, IsBodyTaken, IsFilled, MayReadBody, failed_fetch};

use sat_base::{Filling, Source, fill};
use std::alloc::Global;

/// Why there is no body.
#[derive(Clone, Copy, Debug, PartialEq, Eq)]
pub enum BodyErr {
    /// The source ended before the body was whole.
    Short,
    /// A read failed before the body was whole.
    Fault,
    /// There is no memory for the body. No read was made.
    NoMemory,
}

// Fills the body: with bytes that were read with the head, and then with those that are left.
fn fill_body<S: Source>(source: &mut S, read: &[u8], body: &mut [u8]) -> Filling
    ensures length { length body.new ≡ length body.old }
    ensures took { (more : List ℕ) × Took (MayReadBody (length body.old) read.now) more (idle_reads result) (failed_filling result)
        (S.about source.old) (S.about source.new) × (length read.now + length more ≤ max (length read.now) (length body.old))
        × IsFilled body.new (read.now ++ more) (S.about source.new).left result }
{
    let have = body.len().min(read.len());
    body[..have].copy_from_slice(&read[..have]);
    fill(source, body, have).end
}

/// The body of so many bytes, as Content-Length tells (RFC 9112, 6.2): its first bytes were read with the head, and the
/// others are still left.
///
/// An `Ok` is exactly the first `size` bytes of these (`body`), and of those that were taken, whatever the source tells
/// (`took`). No read is made once the body is whole, and none asks for more than is missing of it. What was taken is gone
/// from the source, also at an `Err`; a failed read is counted, and nothing else.
pub fn fetch_body<S: Source>(
    alloc: Global,
    source: &mut S,
    read: &[u8],
    size: usize,
) -> Result<Vec<u8>, BodyErr>
    ensures body { (left : List ℕ) → (S.about source.old).left ≡ Some left → IsBody size (read.now ++ left) result }
    ensures took { (more : List ℕ) × Took (MayReadBody size read.now) more 1 (failed_fetch result)
        (S.about source.old) (S.about source.new) × (length read.now + length more ≤ max (length read.now) size)
        × IsBodyTaken size read.now more (S.about source.new).left result }
{
    let Ok(mut body) = vec![in alloc; 0u8; size] else {
        return Err(BodyErr::NoMemory);
    };
    match fill_body(source, read, &mut body) {
        Filling::Full => Ok(body),
        Filling::Ended => Err(BodyErr::Short),
        Filling::Failed => Err(BodyErr::Fault),
    }
}

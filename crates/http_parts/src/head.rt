// Reads until a head is whole.
ghost use Rattle.std.specs.Prelude.{◌≡◌, ◌≤◌, length, take};
ghost use Rattle.sat_base.specs.Streams.{Took};
ghost use Rattle.http_parts.specs.Heads.{max_head, max_lines, IsHeadEnd, IsLook, MayReadHead, failed_head, idle_head};

use httparse::spans::{HeaderSpan, RequestSpans, parse_request};
use httparse::{Error, Status};
use sat_base::{Source, Taken};

/// How the reading of a head ended.
#[derive(Clone, Copy)]
pub enum HeadEnd {
    /// A head stands at the front.
    Whole(RequestSpans),
    /// No bytes that can follow make a head.
    Never,
    /// The source ended before the head was whole.
    Ended,
    /// The buffer is full, and no head stands at its front.
    Full,
    /// A read failed before the head was whole.
    Fault,
}

/// What was read of a head.
#[derive(Clone, Copy)]
pub struct HeadRead {
    /// How many bytes were read: those at the front of the buffer.
    pub got: usize,
    pub end: HeadEnd,
}

// What a look at the bytes of a head says.
#[derive(Clone, Copy)]
enum Look {
    // A head stands at the front.
    Whole(RequestSpans),
    // No bytes that can follow make a head.
    Never,
    // They don't decide.
    Open,
}

// Looks for a head at the front.
fn look_for_head(bytes: &[u8], headers: &mut [HeaderSpan]) -> Look
    ensures room { length headers.new ≡ length headers.old }
    ensures says { IsLook (length headers.old) bytes.now headers.new result }
{
    match parse_request(bytes, headers) {
        Ok(Status::Complete(spans)) => Look::Whole(spans),
        Ok(Status::Partial) => Look::Open,
        Err(Error::TooManyHeaders) => Look::Open,
        Err(_) => Look::Never,
    }
}

/// Reads the head of a request (RFC 9112, 2 to 5) into a buffer of [`MAX_HEAD`] bytes, with room for [`MAX_LINES`] headers.
///
/// How it ended says what stands at the front of the bytes that were read (`end`): a head, whose spans and headers are
/// told; none, whatever follows; or none so far, as the source ended, the buffer is full or a read failed. Where there are
/// more header lines than room, a longer prefix may still show that the bytes are no head, so the reading goes on. Each
/// read is made while the bytes so far don't decide, and within the buffer; a failed one is counted, and nothing else
/// (`took`). Bytes behind the head that came with it stand behind it in the buffer.
///
/// [`MAX_HEAD`]: crate::MAX_HEAD
/// [`MAX_LINES`]: crate::MAX_LINES
pub fn read_head<S: Source>(source: &mut S, buf: &mut [u8], headers: &mut [HeaderSpan]) -> HeadRead
    requires size { length buf.now ≡ max_head }
    requires lines { length headers.now ≡ max_lines }
    ensures within { result.got ≤ max_head }
    ensures length { length buf.new ≡ max_head }
    ensures room { length headers.new ≡ max_lines }
    ensures end { IsHeadEnd (take result.got buf.new) headers.new (S.about source.new).left result.end }
    ensures took { Took MayReadHead (take result.got buf.new) (idle_head result.end) (failed_head result.end)
        (S.about source.old) (S.about source.new) }
{
    let mut got = 0;
    loop {
        match look_for_head(&buf[..got], headers) {
            Look::Whole(spans) => return HeadRead {
                got,
                end: HeadEnd::Whole(spans),
            },
            Look::Never => return HeadRead {
                got,
                end: HeadEnd::Never,
            },
            Look::Open => {}
        }
        if got == buf.len() {
            return HeadRead {
                got,
                end: HeadEnd::Full,
            };
        }
        match source.read(&mut buf[got..]) {
            Taken::Count(count) => got += count,
            Taken::End => return HeadRead {
                got,
                end: HeadEnd::Ended,
            },
            Taken::Failed => return HeadRead {
                got,
                end: HeadEnd::Fault,
            },
        }
    }
}

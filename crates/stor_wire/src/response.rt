// Reads until an answer is whole.
ghost use Rattle.std.specs.Prelude.{◌≡◌, ◌≤◌, length, take};
ghost use Rattle.httparse.specs.Grammar.{ResponseHead};
ghost use Rattle.httparse.specs.Spans.{IsResponseAt, IsResponseWithin};
ghost use Rattle.http_parts.specs.Heads.{max_lines};
ghost use Rattle.sat_base.specs.Streams.{Took};
ghost use Rattle.stor_wire.specs.Settlements.{IsAnswerEnd, IsWholeAnswer, MayReadAnswer, failed_answer, idle_answer, max_answer};

use crate::values::length_named;
use http_parts::{MAX_BODY, MAX_HEAD, MAX_LINES};
use httparse::Status;
use httparse::spans::{EMPTY_HEADER_SPAN, HeaderSpan, ResponseSpans, parse_response};
use sat_base::{Source, Taken};

/// An answer that is whole: its status, and where its body stands.
#[derive(Clone, Copy)]
pub(crate) struct Whole {
    pub status: u16,
    pub start: usize,
    pub size: usize,
}

/// How the reading of an answer ended.
#[derive(Clone, Copy)]
pub(crate) enum AnswerEnd {
    /// An answer is whole.
    Whole(Whole),
    /// The source ended before.
    Ended,
    /// The buffer is full, and none is whole.
    Full,
    /// A read failed before.
    Fault,
}

/// What was read of an answer.
#[derive(Clone, Copy)]
pub(crate) struct AnswerRead {
    /// How many bytes were read: those at the front of the buffer.
    pub got: usize,
    pub end: AnswerEnd,
}

/// Reads into a buffer until an answer is whole.
pub(crate) fn read_answer<S: Source>(source: &mut S, buf: &mut [u8]) -> AnswerRead
    requires { length buf.now ≡ max_answer }
    ensures within { result.got ≤ max_answer }
    ensures length { length buf.new ≡ max_answer }
    ensures end { IsAnswerEnd (take result.got buf.new) (S.about source.new).left result.end }
    ensures took { Took MayReadAnswer (take result.got buf.new) (idle_answer result.end) (failed_answer result.end)
        (S.about source.old) (S.about source.new) }
{
    let mut got = 0;
    loop {
        if let Some(whole) = whole_answer(&buf[..got]) {
            return AnswerRead {
                got,
                end: AnswerEnd::Whole(whole),
            };
        }
        if got == buf.len() {
            return AnswerRead {
                got,
                end: AnswerEnd::Full,
            };
        }
        match source.read(&mut buf[got..]) {
            Taken::Count(count) => got += count,
            Taken::End => return AnswerRead {
                got,
                end: AnswerEnd::Ended,
            },
            Taken::Failed => return AnswerRead {
                got,
                end: AnswerEnd::Fault,
            },
        }
    }
}

// The answer at the front of the bytes, where one is whole.
fn whole_answer(bytes: &[u8]) -> Option<Whole>
    ensures { IsWholeAnswer bytes.now result }
{
    let mut headers = [EMPTY_HEADER_SPAN; MAX_LINES];
    match parse_response(bytes, &mut headers) {
        Ok(Status::Complete(spans)) => behind_head(bytes, &headers, spans),
        Ok(Status::Partial) => None,
        Err(_) => None,
    }
}

// The answer of a head, where its body is whole.
fn behind_head(bytes: &[u8], headers: &[HeaderSpan], spans: ResponseSpans) -> Option<Whole>
    requires within { IsResponseWithin bytes.now headers.now spans }
    requires lines { length headers.now ≡ max_lines }
    ensures { (h : ResponseHead) → IsResponseAt bytes.now headers.now spans h → IsWholeAnswer bytes.now result }
{
    if spans.len > MAX_HEAD {
        return None;
    }
    let size = length_named(bytes, &headers[..spans.headers], MAX_BODY)? as usize;
    if bytes.len() - spans.len < size {
        return None;
    }
    Some(Whole {
        status: spans.code,
        start: spans.len,
        size,
    })
}

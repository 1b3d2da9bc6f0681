// Bounded reads and whole writes.
ghost use Rattle.std.specs.Prelude.{◌≡◌, ◌≤◌, ◌-◌, length, take, slice_range};
ghost use Rattle.sat_base.specs.Streams.{FillsUp, IsFilling, Took, Wrote, failed_filling, idle_reads};

use crate::{Given, Sink, Source, Taken};

/// How the filling of a buffer ended.
#[derive(Clone, Copy)]
pub enum Filling {
    /// The buffer is full.
    Full,
    /// The source ended before.
    Ended,
    /// A read failed.
    Failed,
}

/// What a buffer was filled with.
#[derive(Clone, Copy)]
pub struct Filled {
    /// How many bytes of the buffer stand.
    pub len: usize,
    pub end: Filling,
}

/// Reads into a buffer behind its first bytes until it is full. Each read asks for all that is missing.
pub fn fill<S: Source>(source: &mut S, buf: &mut [u8], from: usize) -> Filled
    requires { from ≤ length buf.now }
    ensures least { from ≤ result.len }
    ensures most { result.len ≤ length buf.old }
    ensures length { length buf.new ≡ length buf.old }
    ensures kept { take from buf.new ≡ take from buf.old }
    ensures end { IsFilling (length buf.old) result.len (S.about source.new).left result.end }
    ensures took { Took (FillsUp (length buf.old - from)) (slice_range buf.new from result.len)
        (idle_reads result.end) (failed_filling result.end) (S.about source.old) (S.about source.new) }
{
    let mut len = from;
    while len < buf.len() {
        match source.read(&mut buf[len..]) {
            Taken::Count(count) => len += count,
            Taken::End => return Filled {
                len,
                end: Filling::Ended,
            },
            Taken::Failed => return Filled {
                len,
                end: Filling::Failed,
            },
        }
    }
    Filled {
        len,
        end: Filling::Full,
    }
}

/// Writes the bytes, all of them or, where a put fails, some from the front. It tells whether all were written.
pub fn write_all<S: Sink>(sink: &mut S, bytes: &[u8]) -> bool
    ensures { Wrote bytes.now result (S.about sink.old) (S.about sink.new) }
{
    let mut done = 0;
    while done < bytes.len() {
        match sink.put(&bytes[done..]) {
            Given::Count(count) => done += count,
            Given::Failed => return false,
        }
    }
    true
}

// Sends a message.
ghost use Rattle.sat_base.specs.Streams.{Wrote};
ghost use Rattle.http_parts.specs.Sending.{all_sent};

use sat_base::{Sink, write_all};

/// What sending answers.
#[derive(Clone, Copy)]
pub enum Sent {
    /// All bytes were written.
    All,
    /// A put failed, and bytes from the front were written.
    Fault,
}

/// Sends the bytes of a message (RFC 9112, 2.1), all of them or, where a put fails, some from the front. A failed put is
/// counted, and what is left to read stays.
pub fn send<S: Sink>(sink: &mut S, bytes: &[u8]) -> Sent
    ensures { Wrote bytes.now (all_sent result) (S.about sink.old) (S.about sink.new) }
{
    if write_all(sink, bytes) {
        Sent::All
    } else {
        Sent::Fault
    }
}

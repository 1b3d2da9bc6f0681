// How many bytes a lane keeps.
ghost use Rattle.std.specs.Prelude.{◌≡◌, ◌+◌, ◌-◌, ◌^◌};

use http_parts::{MAX_BODY, MAX_HEAD};
use sat_base::limits::PIECE;

/// How many bytes a lane keeps for its connections.
#[derive(Clone, Copy, Debug, PartialEq, Eq)]
pub struct Room {
    /// Of a body, the most that are waited for. A request whose head tells of more is handed out with its head.
    pub body: u64,
    /// Of an answer, the most that wait for its client to take them.
    pub answer: usize,
    /// Of all requests and answers, but those of connections that are handed out. Where they have more, the connection
    /// that came first of those whose requests aren't whole is closed. So it is to have room for a request of its own.
    pub all: usize,
}

impl Room {
    /// Room for requests whose bodies have fields, and for answers of 1 MiB, of however many connections.
    pub fn for_fields() -> Room
        ensures { result ≡ record { body = MAX_BODY; answer = 1048576; all = 2 ^ 64 - 1 } }
    {
        Room {
            body: MAX_BODY,
            answer: 1_048_576,
            all: usize::MAX,
        }
    }

    /// Room for requests whose bodies are pieces, of 4 MiB at most, and for answers of such a piece and a head of 8192 bytes.
    /// All have 64 MiB: fifteen of the longest puts come side by side before one makes room for another, and clients that only
    /// begin such puts, however many, don't take the memory of a small machine.
    pub fn for_pieces() -> Room
        ensures { result ≡ record { body = PIECE; answer = PIECE + MAX_HEAD; all = 67108864 } }
    {
        Room {
            body: PIECE,
            answer: PIECE as usize + MAX_HEAD,
            all: 67_108_864,
        }
    }
}

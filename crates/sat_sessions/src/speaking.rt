// A connection is answered.
ghost use Rattle.std.specs.Prelude.{◌≡◌, ℕ, List};
ghost use Rattle.sat_base.specs.Streams.{Wrote};
ghost use Rattle.sat_sessions.specs.Speaking.{Tells, IsAnswer, IsSayable, words_text, term_text};

use http_edge::{EdgeErr, answer, edge_answer, memory_answer};
use http_parts::{Sent, send};
use machine_calls::Reply;
use order_limits::Keys;
use sat_base::{Bytes, Link, NoMemory};
use std::alloc::Global;

/// What a connection is told.
#[derive(Drop)]
pub enum Said {
    /// The machine's reply, which is one that callers are told.
    Reply(Reply),
    /// Why its bytes ask nothing.
    Edge(EdgeErr),
    /// Random words ran out.
    Words,
    /// The term has all the calls that it takes.
    Term,
}

/// Sends the text of what is said, or that memory runs out. It tells whether the whole text was written; where it
/// wasn't, a put failed, and a part from its front was.
pub fn speak<N: Link>(alloc: Global, keys: &Keys, link: &mut N, said: &Said) -> bool
    requires { IsSayable said.now }
    ensures { (text : List ℕ) × Tells keys.now said.now text × Wrote text result (N.about link.old) (N.about link.new) }
{
    match said {
        Said::Reply(reply) => send_or_tell(link, answer(alloc, keys, reply)),
        Said::Edge(error) => send_or_tell(link, edge_answer(alloc, error)),
        Said::Words => send_all(link, words_answer()),
        Said::Term => send_all(link, term_answer()),
    }
}

// Sends the text.
fn send_all<N: Link>(link: &mut N, text: &[u8]) -> bool
    ensures { Wrote text.now result (N.about link.old) (N.about link.new) }
{
    match send(link, text) {
        Sent::All => true,
        Sent::Fault => false,
    }
}

// Sends the text, or where there is none that memory runs out.
fn send_or_tell<N: Link>(link: &mut N, text: Result<Bytes, NoMemory>) -> bool
    ensures { (sent : List ℕ) × IsAnswer text sent × Wrote sent result (N.about link.old) (N.about link.new) }
{
    match text {
        Ok(text) => send_all(link, text.as_slice()),
        Err(_) => send_all(link, memory_answer()),
    }
}

// The answer where random words run out. It takes no memory.
fn words_answer() -> &'static [u8]
    ensures { result.now ≡ words_text }
{
    b"HTTP/1.1 503 Service Unavailable\r\ncontent-type: application/json\r\ncontent-length: 17\r\nconnection: close\r\n\r\n{\"error\":\"words\"}"
}

// The answer where the term is full. It takes no memory.
fn term_answer() -> &'static [u8]
    ensures { result.now ≡ term_text }
{
    b"HTTP/1.1 503 Service Unavailable\r\ncontent-type: application/json\r\ncontent-length: 16\r\nconnection: close\r\n\r\n{\"error\":\"term\"}"
}

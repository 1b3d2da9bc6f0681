// One link, from its bytes to its answer.
ghost use Rattle.std.specs.Prelude.{◌≡◌, false, None};
ghost use Rattle.http_parts.specs.Sending.{all_sent};
ghost use Rattle.stor_serve.specs.Links.{Answers, SaysWhy, Serves};
ghost use Rattle.stor_serve.specs.Performing.{wanted_of};

use crate::performing::{Performed, perform};
use crate::served::Served;
use http_parts::{Sent, send};
use order_uses::{Uses, Wanted};
use sat_base::{Clock, Keeper, Link};
use std::alloc::Global;
use stor_base::Pieces;
use stor_wire::{Answer, ReadErr, Request, answer_bytes, memory_answer, read_request};

/// Reads one request of a link, takes the moment, counts the bytes that are asked for, gives or keeps them, and answers.
pub(crate) fn serve_link<C: Link, K: Keeper, P: Pieces, T: Clock>(
    alloc: Global,
    link: &mut C,
    uses: &mut Uses<K>,
    pieces: &mut P,
    clock: &mut T,
) -> Served
    ensures { Serves K.about
        (record {
          uses = uses.old;
          pieces = record { held = P.held pieces.old; faults = P.faults pieces.old };
          coming = T.coming clock.old;
        })
        (record {
          uses = uses.new;
          pieces = record { held = P.held pieces.new; faults = P.faults pieces.new };
          coming = T.coming clock.new;
        })
        (C.about link.old) (C.about link.new) result }
{
    let read = read_request(alloc, link);
    let now = clock.now();
    match read {
        Ok(request) => {
            let Performed { took, answer } = perform(alloc, uses, pieces, now, &request);
            let Said { status, sent } = say(alloc, link, &answer);
            Served {
                wanted: Some(into_wanted(request)),
                taken: took.is_ok(),
                now,
                status,
                sent,
            }
        }
        Err(why) => decline(alloc, link, now, why),
    }
}

// What was asked.
fn into_wanted(request: Request) -> Wanted
    ensures { result ≡ wanted_of request }
{
    match request {
        Request::Fetch { wanted, offset: _ } => wanted,
        Request::Put { wanted, piece: _ } => wanted,
    }
}

// What comes of a link that asks nothing.
fn decline<C: Link>(alloc: Global, link: &mut C, now: u64, why: ReadErr) -> Served
    ensures says { SaysWhy why (C.about link.old) (C.about link.new) result.status result.sent }
    ensures nothing { (result.wanted ≡ None) × (result.taken ≡ false) × (result.now ≡ now) }
{
    let Said { status, sent } = say_why(alloc, link, why);
    Served {
        wanted: None,
        taken: false,
        now,
        status,
        sent,
    }
}

// Answers why nothing was asked. A link that broke isn't answered.
fn say_why<C: Link>(alloc: Global, link: &mut C, why: ReadErr) -> Said
    ensures { SaysWhy why (C.about link.old) (C.about link.new) result.status result.sent }
{
    match why {
        ReadErr::Head => say(alloc, link, &Answer::Head),
        ReadErr::NoMemory => say(alloc, link, &Answer::NoMemory),
        ReadErr::Fault => Said {
            status: 0,
            sent: false,
        },
    }
}

// The status of an answer, and whether all of it was written.
struct Said {
    status: u16,
    sent: bool,
}

// Writes an answer, or where there is no memory for it the one that says so.
fn say<C: Link>(alloc: Global, link: &mut C, meant: &Answer) -> Said
    ensures { Answers meant.now (C.about link.old) (C.about link.new) result.status result.sent }
{
    match answer_bytes(alloc, meant) {
        Ok(text) => Said {
            status: meant.status(),
            sent: is_sent(send(link, text.as_slice())),
        },
        Err(_) => Said {
            status: Answer::NoMemory.status(),
            sent: is_sent(send(link, memory_answer())),
        },
    }
}

// Whether all bytes were written.
fn is_sent(sent: Sent) -> bool
    ensures { result ≡ all_sent sent }
{
    matches!(sent, Sent::All)
}

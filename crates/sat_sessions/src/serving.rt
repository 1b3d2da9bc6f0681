// One connection, from its bytes to its answer.
ghost use Rattle.std.specs.Prelude.{◌≡◌, false, IsSome, IfSome};
ghost use Rattle.machine_step.specs.Step.{IsAsked};
ghost use Rattle.sat_book.specs.Book.{start_of};
ghost use Rattle.sat_sessions.specs.Good.{IsAnswered, IsGood};
ghost use Rattle.sat_sessions.specs.Listening.{IfCall};
ghost use Rattle.sat_sessions.specs.Serves.{Answers, IfStops, Serves};
ghost use Rattle.sat_sessions.specs.Sessions.{stops_at};
ghost use Rattle.sat_sessions.specs.declared.listening.Listened.{Listened};

use crate::laws::good_requests_are_answered;
use crate::listening::{Listened, listen};
use crate::speaking::{Said, speak};
use crate::told::{BookPass, Session, SessionEnd, SessionWorked};
use machine_calls::{Call, Refusal, Reply};
use order_limits::Keys;
use sat_base::{Clock, Gate, Keeper, Link, Point, Words};
use sat_book::{Answered, Book};
use std::alloc::Global;
use std::sync::Wait;
use turnstile::{Desk, Turned};

// What an answer came to. `stops` tells that the machine stops or has stopped.
struct Replied<K> {
    pass: BookPass<K>,
    end: SessionEnd,
    stops: bool,
}

/// Reads one request of a connection, takes the moment, and 128 random words where a segment is to begin; passes the
/// gate; enters the call at the desk; answers; and passes the gate again.
///
/// The ends `ReadFault` and `WordsFault` come only where that count rose, and `TermFull` only where the ticket is at or
/// above the term (`serves`). A good request is answered with status 200, or 507 where memory runs out (`good`).
/// `lane` is for the gate, and `number` for what the session tells.
pub fn session<K: Keeper, N: Link, T: Clock, W: Words, G: Gate, R: Wait>(
    rt: &R,
    alloc: Global,
    desk: &Desk<Book<K>>,
    pass: BookPass<K>,
    keys: &Keys,
    link: &mut N,
    clock: &mut T,
    words: &mut W,
    gate: &G,
    lane: u16,
    number: u64,
) -> SessionWorked<K>
    requires desk { pass.desk ≡ desk.now }
    requires base { IsSome pass.base }
    ensures serves { Serves keys.now pass (record {
      coming = T.coming clock.old;
      coming_after = T.coming clock.new;
      words = W.left words.old;
      words_after = W.left words.new;
      faults = W.faults words.old;
      faults_after = W.faults words.new;
    }) (N.about link.old) (N.about link.new) result.session.end result.stops result.pass }
    ensures good { IfSome pass.base (λ origin. IsGood keys.now (start_of origin.opening) (record {
      coming = T.coming clock.old;
      coming_after = T.coming clock.new;
      words = W.left words.old;
      words_after = W.left words.new;
      faults = W.faults words.old;
      faults_after = W.faults words.new;
    }) (N.about link.old) (N.about link.new) result.pass.seen result.session.end
        → IsAnswered keys.now (start_of origin.opening) (N.about link.old) (N.about link.new) result.pass.seen result.session.end) }
    ensures stopped { IfStops result.stops result.session.end result.pass.seen }
    ensures number { result.session.number ≡ number }
{
    good_requests_are_answered();
    let heard = listen(alloc, keys, link, clock, words);
    gate.pass(Point::SessionRead { lane });
    let replied = answer_to(rt, alloc, desk, pass, keys, link, heard);
    gate.pass(Point::SessionSent { lane });
    let Replied { pass, end, stops } = replied;
    SessionWorked {
        pass,
        session: Session { number, end },
        stops,
    }
}

// Answers what was heard: a call by what its turn gives, and all else by why there is none.
fn answer_to<K: Keeper, N: Link, R: Wait>(
    rt: &R,
    alloc: Global,
    desk: &Desk<Book<K>>,
    pass: BookPass<K>,
    keys: &Keys,
    link: &mut N,
    heard: Listened,
) -> Replied<K>
    requires desk { pass.desk ≡ desk.now }
    requires base { IsSome pass.base }
    requires formed { IfCall heard IsAsked }
    ensures { Answers keys.now pass heard (N.about link.old) (N.about link.new) result.end result.stops result.pass }
{
    match heard {
        Listened::Call(call) => answer_call(rt, alloc, desk, pass, keys, link, call),
        Listened::Edge(error) => {
            let sent = speak(alloc, keys, link, &Said::Edge(error));
            without_turn(pass, SessionEnd::Edge { error, sent })
        }
        Listened::ReadFault => without_turn(pass, SessionEnd::ReadFault),
        Listened::WordsFault => {
            let sent = speak(alloc, keys, link, &Said::Words);
            without_turn(pass, SessionEnd::WordsFault { sent })
        }
    }
}

// A session that entered nothing.
fn without_turn<K>(pass: BookPass<K>, end: SessionEnd) -> Replied<K>
    ensures { (result.pass ≡ pass) × (result.end ≡ end) × (result.stops ≡ false) }
{
    Replied {
        pass,
        end,
        stops: false,
    }
}

// Enters the call, and answers with its reply.
fn answer_call<K: Keeper, N: Link, R: Wait>(
    rt: &R,
    alloc: Global,
    desk: &Desk<Book<K>>,
    pass: BookPass<K>,
    keys: &Keys,
    link: &mut N,
    call: Call,
) -> Replied<K>
    requires desk { pass.desk ≡ desk.now }
    requires base { IsSome pass.base }
    requires formed { IsAsked call }
    ensures { Answers keys.now pass (Listened.Call call) (N.about link.old) (N.about link.new) result.end result.stops result.pass }
{
    match desk.enter(rt, pass, call) {
        Turned::Done(pass, answered) => {
            let Answered { place, reply } = answered;
            let stops = stops_at(&reply);
            let sent = speak(alloc, keys, link, &Said::Reply(reply));
            Replied {
                pass,
                end: SessionEnd::Entered { place, sent },
                stops,
            }
        }
        Turned::TermFull(pass, ticket) => {
            let sent = speak(alloc, keys, link, &Said::Term);
            Replied {
                pass,
                end: SessionEnd::TermFull { ticket, sent },
                stops: false,
            }
        }
    }
}

// Whether a reply tells that the machine stops or has stopped.
fn stops_at(reply: &Reply) -> bool
    ensures { result ≡ stops_at reply.now }
{
    matches!(reply, Reply::Stopping | Reply::Refused(Refusal::Stopped))
}

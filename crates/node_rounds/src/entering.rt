// Calls at the desk.
ghost use Rattle.std.specs.Prelude.{◌≡◌, ◌+◌, ◌<◌, ◌≤◌, length, vec_capacity, IsSome, IsSomeAnd, Some};
ghost use Rattle.sat_book.specs.Book.{MayEnter};
ghost use Rattle.node_rounds.specs.Calls.{Turns};
ghost use Rattle.node_rounds.specs.Entering.{Finishes, Opens};
ghost use Rattle.node_rounds.specs.Asked.{nodes_view};
ghost use Rattle.node_rounds.specs.Parts.{kit_view};
ghost use Rattle.node_rounds.specs.Askable.{IsFoundAs, IsStoreOf};

use crate::drawing::draw_words;
use crate::kit::{Kit, RoundStore};
use crate::upkeep::{Found, Upkeep, end_call, plan_call, went_at, words_of};
use machine_calls::{Call, Reply};
use sat_base::{Clock, Keeper, Moment, Nodes, Ticks, Words};
use sat_book::{Answered, Book};
use sat_sessions::{BookPass, RoundEnd};
use std::alloc::Global;
use std::sync::Wait;
use turnstile::{Desk, Turned};

// Enters a call and names its place. The error is the ticket, where it is at or above the term.
pub(crate) fn enter<K: Keeper, R: Wait>(
    rt: &R,
    desk: &Desk<Book<K>>,
    pass: BookPass<K>,
    call: Call,
    places: &mut Vec<u64>,
) -> (BookPass<K>, Result<Reply, u64>)
    requires desk { pass.desk ≡ desk.now }
    requires may { MayEnter pass.base call }
    requires room { length places.old.items < vec_capacity places.old }
    ensures { Turns pass call result.1 result.0 places.old places.new }
{
    match desk.enter(rt, pass, call) {
        Turned::Done(pass, answered) => {
            let Answered { place, reply } = answered;
            places.push_reserved(place);
            (pass, Ok(reply))
        }
        Turned::TermFull(pass, ticket) => (pass, Err(ticket)),
    }
}

// Enters a plan: with the next words, and at the clock's next moment.
pub(crate) fn plan<K: Keeper, N: Nodes, T: Clock, W: Words, I: Ticks, R: Wait>(
    rt: &R,
    alloc: Global,
    desk: &Desk<Book<K>>,
    pass: BookPass<K>,
    kind: Upkeep,
    kit: &mut Kit<N, T, W, I>,
    places: &mut Vec<u64>,
) -> (BookPass<K>, Result<Reply, RoundEnd>)
    requires desk { pass.desk ≡ desk.now }
    requires base { IsSome pass.base }
    requires room { length places.old.items < vec_capacity places.old }
    ensures { Opens kind (kit_view (nodes_view N.held N.asks N.faults) T.coming W.left W.faults I.about kit.old) pass result.1
        (kit_view (nodes_view N.held N.asks N.faults) T.coming W.left W.faults I.about kit.new) result.0 places.old places.new }
{
    let words = match draw_words(alloc, &mut kit.words, words_of(kind)) {
        Ok(words) => words,
        Err(end) => return (pass, Err(end)),
    };
    let now = Moment::of(kit.clock.now());
    let (pass, answered) = enter(rt, desk, pass, plan_call(kind, now, words), places);
    match answered {
        Ok(reply) => (pass, Ok(reply)),
        Err(ticket) => (pass, Err(RoundEnd::TermFull { ticket })),
    }
}

// Enters the end of a plan, with what was found, at the clock's next moment.
pub(crate) fn finish<K: Keeper, T: Clock, R: Wait>(
    rt: &R,
    desk: &Desk<Book<K>>,
    pass: BookPass<K>,
    store: &RoundStore,
    found: Found,
    clock: &mut T,
    places: &mut Vec<u64>,
) -> (BookPass<K>, Option<RoundEnd>)
    requires desk { pass.desk ≡ desk.now }
    requires base { IsSomeAnd pass.base (λ origin. IsStoreOf origin.opening store.now.keys store.now.scheme) }
    requires found { IsFoundAs store.now.scheme found }
    requires room { length places.old.items < vec_capacity places.old }
    ensures { Finishes found (T.coming clock.old) pass result.1 (T.coming clock.new) result.0 places.old places.new }
{
    let now = Moment::of(clock.now());
    match enter(rt, desk, pass, end_call(found, now), places) {
        (pass, Ok(reply)) => (pass, went_at(&reply)),
        (pass, Err(ticket)) => (pass, Some(RoundEnd::TermFull { ticket })),
    }
}

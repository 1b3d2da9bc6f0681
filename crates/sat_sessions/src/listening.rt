// A connection is listened to.
ghost use Rattle.std.specs.Prelude.{◌≡◌, ◌≤◌, ◌<◌, ℕ, List, length, not, IsTrue, false};
ghost use Rattle.machine_calls.specs.declared.call.Call.{Call};
ghost use Rattle.machine_step.specs.Step.{HasBytes, IsAsked, words_for};
ghost use Rattle.sat_base.specs.Outside.{CountsExactly, with_front};
ghost use Rattle.sat_base.specs.Streams.{Took};
ghost use Rattle.http_edge.specs.Requests.{MayRead, max_request};
ghost use Rattle.sat_sessions.specs.Listening.{Hears, Enters, failed_to_read, failed_to_draw, IfCall};

use http_edge::{EdgeErr, ReadErr, Wish, read_request};
use machine_calls::{Call, are_bytes};
use order_limits::Keys;
use sat_base::{Clock, Drawn, Items, Link, Moment, Words, limits};
use std::alloc::Global;

/// What a connection asks.
#[derive(Drop)]
pub enum Listened {
    /// A call of the machine.
    Call(Call),
    /// Its bytes ask nothing, or memory ran out.
    Edge(EdgeErr),
    /// A read failed.
    ReadFault,
    /// A segment is to begin, and random words ran out.
    WordsFault,
}

/// Reads one request of a connection. For its wish the moment is taken, and 128 random words are drawn for the
/// beginning of a segment alone. An error takes no moment and no word, but that words may have run out.
pub fn listen<N: Link, T: Clock, W: Words>(
    alloc: Global,
    keys: &Keys,
    link: &mut N,
    clock: &mut T,
    words: &mut W,
) -> Listened
    // The call is that of the wish that the bytes left say, or the error is the one that they say.
    ensures hears { Hears keys.now (N.about link.old).left (record {
      coming = T.coming clock.old;
      coming_after = T.coming clock.new;
      words = W.left words.old;
      words_after = W.left words.new;
      faults = W.faults words.old;
      faults_after = W.faults words.new;
    }) result }
    ensures ready { IfCall result IsAsked }
    ensures took { (bytes : List ℕ) × Took (MayRead keys.now) bytes 1 (failed_to_read result)
        (N.about link.old) (N.about link.new) × (length bytes ≤ max_request) }
    ensures words_faults { CountsExactly (failed_to_draw result) (W.faults words.old) (W.faults words.new) }
{
    match read_request(alloc, link, keys) {
        Ok(wish) => enter(alloc, wish, clock, words),
        Err(ReadErr::Fault) => Listened::ReadFault,
        Err(ReadErr::Edge(error)) => Listened::Edge(error),
    }
}

// The call of a wish. The room for words is made first, so that nothing is taken where memory runs out.
fn enter<T: Clock, W: Words>(alloc: Global, wish: Wish, clock: &mut T, words: &mut W) -> Listened
    ensures hears { Enters wish (record {
      coming = T.coming clock.old;
      coming_after = T.coming clock.new;
      words = W.left words.old;
      words_after = W.left words.new;
      faults = W.faults words.old;
      faults_after = W.faults words.new;
    }) result }
    ensures bytes { IfCall result HasBytes }
    ensures read_faults { failed_to_read result ≡ false }
    ensures words_faults { CountsExactly (failed_to_draw result) (W.faults words.old) (W.faults words.new) }
{
    let Ok(mut drawn) = vec![in alloc; 0u64; words_of(&wish)] else {
        return Listened::Edge(EdgeErr::NoMemory);
    };
    let now = Moment::of(clock.now());
    if draw(words, &mut drawn) {
        wish_has_bytes(&wish);
        let words = Items::of(drawn);
        Listened::Call(Call::Asked { now, words, wish })
    } else {
        Listened::WordsFault
    }
}

// How many random words are drawn for a wish.
fn words_of(wish: &Wish) -> usize
    ensures { result ≡ words_for wish.now }
{
    match wish {
        Wish::Begin { .. } => limits::WORDS,
        _ => 0,
    }
}

// The bytes of an order that a wish presents are below 256, which no contract says of a list.
fn wish_has_bytes(wish: &Wish)
    ensures { (now : ℕ) (words : List ℕ) → HasBytes (Call.Asked now words wish.now) }
{
    match wish {
        Wish::Settle { bytes, .. } => are_bytes(bytes.as_slice()),
        _ => {}
    }
}

/// Draws as many words as there is room for. It tells whether all came.
pub fn draw<W: Words>(words: &mut W, room: &mut [u64]) -> bool
    ensures all { IsTrue result → W.left words.old ≡ with_front room.new (W.left words.new) }
    ensures some { result ≡ false → (drawn : List ℕ) × (length drawn < length room.old) × (W.left words.old ≡ with_front drawn (W.left words.new)) }
    ensures size { length room.new ≡ length room.old }
    ensures faults { CountsExactly (not result) (W.faults words.old) (W.faults words.new) }
{
    for i in 0..room.len() {
        match words.word() {
            Drawn::Word(word) => room[i] = word,
            Drawn::Failed => return false,
        }
    }
    true
}

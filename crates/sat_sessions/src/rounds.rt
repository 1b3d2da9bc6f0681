// The worker of rounds, whatever a round is.
ghost use Rattle.std.specs.Prelude.{◌≡◌, IsSome};
ghost use Rattle.sat_sessions.specs.Rounds;

use crate::told::BookPass;
use sat_base::{Beat, Gate, Keeper};
use sat_book::Book;
use std::alloc::Global;
use std::sync::Wait;
use turnstile::Desk;

/// How a round ended.
#[derive(Clone, Copy)]
pub enum RoundEnd {
    /// It did all that there was to do.
    Through,
    /// Random words ran out.
    WordsFault,
    /// The ticket is at or above the term, and the call wasn't entered.
    TermFull { ticket: u64 },
    /// The machine has stopped.
    Stopped,
    /// There was no memory to go on.
    NoMemory,
}

/// One round: the places of its entries, in their order, and how it ended.
#[derive(Drop)]
pub struct Round {
    pub places: Vec<u64>,
    pub end: RoundEnd,
}

/// Why a worker of rounds ended.
#[derive(Clone, Copy)]
pub enum RoundsEnd {
    /// No tick will come any more.
    Over,
    /// Its last round met the full term, a machine that has stopped, or a want of random words.
    Round,
    /// There was no memory for the next round, and no tick was taken for it.
    NoMemory,
}

/// What a worker of rounds leaves: its pass, its kit, its rounds and why it ended.
#[derive(Drop)]
pub struct RoundsWorked<K, A> {
    pub pass: BookPass<K>,
    pub kit: A,
    pub rounds: Vec<Round>,
    pub end: RoundsEnd,
}

// Whether no round comes behind one that ended so.
fn ends_rounds(end: RoundEnd) -> bool
    ensures { result ≡ Rounds.ends_rounds end }
{
    matches!(
        end,
        RoundEnd::WordsFault | RoundEnd::TermFull { .. } | RoundEnd::Stopped
    )
}

/// A kit whose worker makes a round at each tick, until it ends.
pub trait RoundKit: Drop + Sized {
    ghost use Rattle.std.specs.Prelude.{List, Option};
    ghost use Rattle.desk_runs.specs.Runs.{Lasts};
    ghost use Rattle.sat_book.specs.Book.{opening_of};
    ghost use Rattle.sat_book.specs.Legal.{E};
    ghost use Rattle.sat_book.specs.declared.opening.Opening.{Opening};
    ghost use Rattle.sat_sessions.specs.Rounds.{KitBeats, KitView, RoundDoes, RoundsRan};
    ghost use Rattle.sat_sessions.specs.declared.rounds.Round.{Round};

    /// What is told of its nodes. No value of it is made.
    type Nodes;

    /// What is told of the kit.
    ghost view: { Self → KitView Self.Nodes };

    /// What a kit is to be for a book that was opened so: where it goes by the store's keys, say, that they are the store's.
    ghost fits: { Option Opening → Self → Type 0 };

    /// What is told of a round over a history in which its entries stand, beside its tick, its moments and its words.
    ghost tells: { Option Opening → KitView Self.Nodes → Round → List E → List E → KitView Self.Nodes → Type 0 };

    /// A law: what is told of a round over a history holds over each longer one, too.
    fn lasts(&self)
        ensures { (opening : Option Opening) → Lasts (tells opening) };

    /// Waits for the next tick.
    fn tick(&mut self) -> Beat
        ensures beats { KitBeats (view self.old) result (view self.new) }
        ensures fits { (opening : Option Opening) → fits opening self.old → fits opening self.new };

    /// Makes one round.
    fn round<K: Keeper, G: Gate, R: Wait>(
        &mut self,
        rt: &R,
        alloc: Global,
        desk: &Desk<Book<K>>,
        pass: BookPass<K>,
        gate: &G,
    ) -> (BookPass<K>, Round)
        requires desk { pass.desk ≡ desk.now }
        requires base { IsSome pass.base }
        requires fits { fits (opening_of pass.base) self.old }
        ensures does { RoundDoes (tells (opening_of pass.base)) (view self.old) pass result.1 (view self.new) result.0 }
        ensures fits { fits (opening_of pass.base) self.new };

    /// Makes a round at each tick, until no tick comes, a round ended so that none comes behind it, or there is no memory for
    /// the next one.
    fn work<K: Keeper, G: Gate, R: Wait>(
        self,
        rt: &R,
        alloc: Global,
        desk: &Desk<Book<K>>,
        pass: BookPass<K>,
        gate: &G,
    ) -> RoundsWorked<K, Self>
        requires desk { pass.desk ≡ desk.now }
        requires base { IsSome pass.base }
        requires fits { fits (opening_of pass.base) self }
        ensures { RoundsRan (tells (opening_of pass.base)) (view self) pass result.rounds.items result.end (view result.kit) result.pass }
    {
        let mut pass = pass;
        let mut kit = self;
        let mut rounds = Vec::new(alloc);
        kit.lasts();
        for _ in rt.forever() {
            if rounds.reserve(1).is_err() {
                let end = RoundsEnd::NoMemory;
                return RoundsWorked {
                    pass,
                    kit,
                    rounds,
                    end,
                };
            }
            if let Beat::Ended = kit.tick() {
                let end = RoundsEnd::Over;
                return RoundsWorked {
                    pass,
                    kit,
                    rounds,
                    end,
                };
            }
            let (after, round) = kit.round(rt, alloc, desk, pass, gate);
            pass = after;
            let ended = round.end;
            rounds.push_reserved(round);
            if ends_rounds(ended) {
                let end = RoundsEnd::Round;
                return RoundsWorked {
                    pass,
                    kit,
                    rounds,
                    end,
                };
            }
        }
        unreachable!()
    }
}

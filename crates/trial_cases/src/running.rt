// One round at a desk of its own.
ghost use Rattle.std.specs.Prelude.{◌≡◌, ◌≤◌, [], IsSome, IsSomeAnd};
ghost use Rattle.machine_calls.specs.declared.call.Call.{Call};
ghost use Rattle.machine_calls.specs.declared.wish.Wish.{Wish};
ghost use Rattle.turnstile.specs.Known.{SameRights};
ghost use Rattle.node_rounds.specs.Askable.{IsStoreOf};

use bw_decode::Scratch;
use machine_calls::{Call, Wish};
use node_rounds::{Kit, RoundStore, TallyKit, audit_round, repair_round, tally_round};
use sat_base::{Gate, KeeperMem, MemClock, MemNodes, MemTicks, MemWords, Moment, OpenGate};
use sat_book::{Book, Entry};
use sat_sessions::{BookPass, Round};
use std::alloc::Global;
use std::mem;
use std::sync::Wait;
use trial_lines::LineErr;
use turnstile::{Desk, Turned};

/// The devices of a round in memory.
pub type MemKit = Kit<MemNodes, MemClock, MemWords, MemTicks>;

/// Which round is made.
#[derive(Clone, Copy, Debug, PartialEq, Eq)]
pub enum Which {
    Audit,
    Repair,
    Tally,
}

/// The round that is due: over a term of so many entries, and whether the machine stops before it.
#[derive(Clone, Copy, Debug, PartialEq, Eq)]
pub struct Due {
    pub which: Which,
    pub term: u64,
    pub stops: bool,
}

/// What a round leaves.
#[derive(Drop)]
pub struct Ran {
    pub keeper: KeeperMem,
    pub kit: MemKit,
    pub round: Round,
    pub history: Vec<Entry>,
}

// The call that stops the machine.
fn stopping(alloc: Global) -> Call
    ensures { result ≡ Call.Asked 0 [] Wish.Stop }
{
    Call::of_wish(alloc, Moment::of(0), Wish::Stop)
}

// Stops the machine, where it is to stop.
fn stop_at<R: Wait>(
    rt: &R,
    alloc: Global,
    desk: &Desk<Book<KeeperMem>>,
    pass: BookPass<KeeperMem>,
    stops: bool,
) -> BookPass<KeeperMem>
    requires desk { pass.desk ≡ desk.now }
    requires base { IsSome pass.base }
    ensures { SameRights pass result }
{
    if !stops {
        return pass;
    }
    match desk.enter(rt, pass, stopping(alloc)) {
        Turned::Done(pass, _) => pass,
        Turned::TermFull(pass, _) => pass,
    }
}

// Makes a round of a tally at the desk, with the clock of a kit.
fn tally_at<R: Wait>(
    rt: &R,
    alloc: Global,
    desk: &Desk<Book<KeeperMem>>,
    pass: BookPass<KeeperMem>,
    kit: &mut MemKit,
) -> (BookPass<KeeperMem>, Round)
    requires desk { pass.desk ≡ desk.now }
    requires base { IsSome pass.base }
    ensures { SameRights pass result.0 }
{
    let clock = mem::replace(&mut kit.clock, MemClock::of(Vec::new(alloc)));
    let ticks = MemTicks::of(0);
    let mut tally = TallyKit { clock, ticks };
    let (pass, round) = tally_round(rt, alloc, desk, pass, &mut tally);
    kit.clock = tally.clock;
    (pass, round)
}

// Makes the round at the desk.
fn round_at<R: Wait>(
    rt: &R,
    alloc: Global,
    desk: &Desk<Book<KeeperMem>>,
    pass: BookPass<KeeperMem>,
    store: &RoundStore,
    scratch: &mut Scratch,
    which: Which,
    kit: &mut MemKit,
) -> (BookPass<KeeperMem>, Round)
    requires desk { pass.desk ≡ desk.now }
    requires base { IsSomeAnd pass.base (λ origin. IsStoreOf origin.opening store.now.keys store.now.scheme) }
    requires points { store.now.scheme.n ≤ scratch.old.points }
    ensures { SameRights pass result.0 }
{
    let gate = OpenGate::of();
    let passing = |point| gate.pass(point);
    match which {
        Which::Audit => audit_round(rt, alloc, desk, pass, store, scratch, kit, &passing),
        Which::Repair => repair_round(rt, alloc, desk, pass, store, scratch, kit, &passing),
        Which::Tally => tally_at(rt, alloc, desk, pass, kit),
    }
}

/// Opens a book over the keeper, makes the round at its desk, where the machine may have stopped, and closes it.
pub fn run<R: Wait>(
    rt: &R,
    alloc: Global,
    keeper: KeeperMem,
    due: Due,
    kit: MemKit,
) -> Result<Ran, LineErr>
    requires { (1 ≤ due.term) × (due.term ≤ 65536) }
{
    let Due { which, term, stops } = due;
    let Ok(book) = Book::open(alloc, keeper, term) else {
        return Err(LineErr::Bad);
    };
    let store = RoundStore::of(&book);
    let mut scratch = Scratch::new(alloc, &store.scheme)?;
    let Ok((desk, pass)) = Desk::new(alloc, book, term) else {
        return Err(LineErr::NoMemory);
    };
    let pass = stop_at(rt, alloc, &desk, pass, stops);
    let mut kit = kit;
    let (pass, round) = round_at(
        rt,
        alloc,
        &desk,
        pass,
        &store,
        &mut scratch,
        which,
        &mut kit,
    );
    let book = desk.close(pass);
    let (keeper, _, history) = book.close();
    Ok(Ran {
        keeper,
        kit,
        round,
        history,
    })
}

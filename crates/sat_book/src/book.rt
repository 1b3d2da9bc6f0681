// The machine over a keeper, with its history.
ghost use Rattle.std.specs.Prelude.{◌≡◌, ◌≤◌, ◌<◌, ◌++◌, ◌∷◌, [], length, None, IfOk, IfErr, map};
ghost use Rattle.sat_base.specs.declared.limits.TheConstants as limits;
ghost use Rattle.turnstile.specs.Entry.{entry_of};
ghost use Rattle.machine_step.specs.Step.{IsWellFormed, step};
ghost use Rattle.machine_history.specs.Orders.{SettleOnce};
ghost use Rattle.sat_book.specs.Book.{Keeps, Spell, start_of};
ghost use Rattle.sat_book.specs.Kept.{Answers};
ghost use Rattle.sat_book.specs.Openings.{Opens, Refuses};
ghost use Rattle.sat_book.specs.Legal.{IsHistory, last_shown, replayed, said_of};
ghost use Rattle.sat_book.specs.Paid.{ClosedMonthsStay, PaysByTariff};

use crate::answering::{Answer, take_step};
use crate::entry::Entry;
use crate::opened::{Ready, make_ready};
use crate::opening::{NotOpened, Opening, Origin};
use sat_base::{Keeper, Row};
use sat_machine::{Call, Core, Reply};
use std::alloc::Global;
use std::marker::Model;
use std::snapshot::Snapshot;
use turnstile::Turn;

/// What a call was answered.
#[derive(Drop)]
pub struct Answered {
    /// How many entries stood before it.
    pub place: u64,
    pub reply: Reply,
}

/// A machine whose every change is in its keeper before it is answered, and the history of its calls.
///
/// Contracts see what it was opened with, its keeper as it was handed in and as it is now, its tables, its history, and
/// how many entries it has room for.
pub struct Book<K: Keeper> {
    pub(crate) alloc: Global,
    pub(crate) keeper: K,
    // as it was handed in, and as the book was opened. A snapshot has no bytes
    pub(crate) first: Snapshot<K>,
    pub(crate) opened: Snapshot<K>,
    pub(crate) opening: Opening,
    pub(crate) core: Core,
    pub(crate) history: Vec<Entry>,
}

// By hand, so that all that a book holds is let go here, and not anew wherever a book is.
impl<K: Keeper + Drop> Drop for Book<K> {
    fn drop(self) {
        let Book {
            alloc: _,
            keeper: _,
            first: _,
            opened: _,
            opening: _,
            core: _,
            history: _,
        } = self;
    }
}

impl<K: Keeper> Model for Book<K> {
    ghost use Rattle.std.specs.Prelude.{◌≡◌, None};
    ghost use Rattle.std.specs.Vec.{vec_capacity};
    ghost use Rattle.sat_book.specs.Book.{BookView, IsBook};

    ghost Value = { BookView K };

    ghost view = { λ b. record {
      opening = b.opening;
      first = b.first.value;
      opened = b.opened.value;
      keeper = b.keeper;
      tables = b.core.tables;
      history = b.history.items;
      room = vec_capacity b.history;
    } };

    ghost invariant = { λ b. (b.core.pending ≡ None) × IsBook K.about (record {
      opening = b.opening;
      first = b.first.value;
      opened = b.opened.value;
      keeper = b.keeper;
      tables = b.core.tables;
      history = b.history.items;
      room = vec_capacity b.history;
    }) };
}

impl<K: Keeper> Book<K> {
    /// Opens a book over a keeper, with room for as many entries as the term says: 1 to 65536. It reads all rows, makes the
    /// machine of them, and takes the room. Rows of an earlier version of the store are then replaced by those of the latest,
    /// in one commit.
    ///
    /// Errors, with the keeper handed back: `Fault` where its count of faults rose; `BadRow` names the first row that holds no
    /// record of the store's version, in the order of the keys; `BadTables` the least rule that the tables break, and the
    /// first record that breaks it; `NoMemory` has no cause that a clause names. The keeper then has the rows that it had. A
    /// crash leaves these, or those of the latest version.
    pub fn open(alloc: Global, keeper: K, term: u64) -> Result<Book<K>, NotOpened<K>>
        requires { (1 ≤ term) × (term ≤ limits.TERM) }
        ensures opened { IfOk result (Opens K.about keeper term) }
        ensures refused { IfErr result (λ no. Refuses K.about keeper no.keeper no.why) }
    {
        let mut keeper = keeper;
        let first = Snapshot::of(&keeper);
        let ready = match make_ready(alloc, &mut keeper, term) {
            Ok(ready) => ready,
            Err(why) => return Err(NotOpened { keeper, why }),
        };
        let Ready {
            core,
            history,
            rows,
            changes: _,
        } = ready;
        let opening = Opening {
            rows,
            core: Snapshot::of(&core),
            faults: keeper.count(),
        };
        let opened = Snapshot::of(&keeper);
        Ok(Book {
            alloc,
            keeper,
            first,
            opened,
            opening,
            core,
            history,
        })
    }

    /// Takes a call: works out its step, writes the rows that it changes, and only then makes the step's tables and
    /// answers. The history grows by this one entry, of the pass.
    ///
    /// `StoreFault` comes only where the step changes a record and the keeper's count of faults rose, between the two
    /// counts; `NoMemory` has no cause that a clause names. Both leave the tables and the keeper's rows. Where the step
    /// changes no record the keeper isn't called.
    pub fn apply(&mut self, pass: u32, call: Call) -> Answered
        requires room { length self.old.history < self.old.room }
        requires formed { IsWellFormed self.old.tables call }
        ensures entry { self.new.history ≡ self.old.history ++ entry_of (length self.old.history) pass call result.reply ∷ [] }
        ensures place { result.place ≡ length self.old.history }
        ensures answers { Answers K.about self.old.tables call result.reply self.new.tables self.old.keeper self.new.keeper }
        ensures quiet { (step self.old.tables call).changes ≡ [] → self.new.keeper ≡ self.old.keeper }
        ensures opening { self.new.opening ≡ self.old.opening }
        ensures first { self.new.first ≡ self.old.first }
        ensures opened { self.new.opened ≡ self.old.opened }
        ensures room { self.new.room ≡ self.old.room }
        ensures spell { Spell self.new.opening }
        ensures lawful { IsHistory (start_of self.new.opening) self.new.opening.faults self.new.history }
        ensures tables { self.new.tables ≡ replayed (start_of self.new.opening) self.new.history }
        ensures keeps { Keeps K.about self.new.first self.new.opened self.new.keeper (start_of self.new.opening) self.new.history }
    {
        let place = self.history.len() as u64;
        let Answer { told, kept } = take_step(self.alloc, &mut self.keeper, &mut self.core, &call);
        self.history.push_reserved(Entry {
            place,
            pass,
            call,
            reply: kept,
        });
        Answered { place, reply: told }
    }

    /// The machine. Its tables are the replay of the history.
    pub fn core(&self) -> &Core
        ensures tables { result.now.tables ≡ self.now.tables }
        ensures pending { result.now.pending ≡ None }
        ensures replay { self.now.tables ≡ replayed (start_of self.now.opening) self.now.history }
    {
        &self.core
    }

    // No step changes what a store is set up with, so that a call that was well formed at the start is so now.
    fn admits(&self, call: &Call)
        requires { IsWellFormed (start_of self.now.opening) call.now }
        ensures { IsWellFormed self.now.tables call.now }
    {
        let _core = &self.core;
    }

    /// The keeper, the rows that the book was opened with, and the history. It takes no memory.
    pub fn close(self) -> (K, Vec<Row>, Vec<Entry>)
        ensures keeper { result.0 ≡ self.keeper }
        ensures opening { result.1.items ≡ self.opening.rows }
        ensures history { result.2.items ≡ self.history }
        ensures spell { Spell self.opening }
        ensures lawful { IsHistory (start_of self.opening) self.opening.faults self.history }
        ensures once { SettleOnce (start_of self.opening) (map said_of self.history) }
        ensures pays { PaysByTariff (start_of self.opening) self.history }
        ensures closed { ClosedMonthsStay (start_of self.opening) self.history }
        ensures shown { last_shown self.opening.faults self.history ≤ (K.about result.0).faults }
        ensures keeps { Keeps K.about self.first self.opened result.0 (start_of self.opening) self.history }
    {
        let Book {
            alloc: _,
            keeper,
            first: _,
            opened: _,
            opening,
            core: _,
            history,
        } = self;
        let Opening {
            rows,
            core: _,
            faults: _,
        } = opening;
        (keeper, rows.into_vec(), history)
    }
}

impl<K: Keeper> Turn for Book<K> {
    ghost use Rattle.std.specs.Prelude.{Some, None};
    ghost use Rattle.sat_book.specs.Book.{AreOf, MayEnter, origin_of};

    type Call = Call;

    type Reply = Reply;

    type Answer = Answered;

    type Base = Option<Origin<K>>;

    ghost base = { λ b. Some (origin_of b) };

    ghost nowhere = { None };

    ghost entries = { λ b. b.history };

    ghost reply = { λ a. a.reply };

    ghost place = { λ a. a.place };

    ghost room = { λ b. b.room };

    ghost lawful = { AreOf };

    ghost well_formed = { MayEnter };

    fn turn(&mut self, pass: u32, call: Call) -> Answered {
        self.admits(&call);
        self.apply(pass, call)
    }
}

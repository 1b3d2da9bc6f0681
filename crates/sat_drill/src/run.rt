// The machine of a drill, and what of its store nodes are asked with.
ghost use Rattle.std.specs.Prelude.{◌≡◌, ◌+◌, ◌<◌, ◌≤◌, [], length, IfOk, OnOk};
ghost use Rattle.sat_base.specs.declared.limits.TheConstants as limits;
ghost use Rattle.sat_base.specs.Moments.{IsMoment};
ghost use Rattle.machine_step.specs.Step.{IsWellFormed};
ghost use Rattle.node_rounds.specs.Upkeep as rules;
ghost use Rattle.sat_book.specs.Book.{start_of};
ghost use Rattle.sat_drill.specs.Drill.{sheet_of};
ghost use Rattle.sat_drill.specs.Run.{IsClosed, Replies};

use crate::steady::Steady;
use bw_decode::Scratch;
use machine_calls::{Call, Reply};
use node_rounds::{RoundStore, Upkeep, ask, end_call, is_plan_of, plan_call};
use sat_base::{Bytes, Moment, NoMemory, Nodes, Row, Words64};
use sat_book::{Book, Entry};
use std::alloc::Global;
use std::marker::Model;
use tally_payout::sheet;

/// The machine that the calls of a drill are entered into. Contracts see its book.
#[derive(Drop)]
pub(crate) struct Run {
    alloc: Global,
    book: Book<Steady>,
    store: RoundStore,
    scratch: Scratch,
}

impl Model for Run {
    ghost use Rattle.sat_base.specs.KeeperMem.{Keeping};
    ghost use Rattle.sat_book.specs.Book.{BookView};
    ghost use Rattle.sat_drill.specs.Run.{IsRun};

    ghost Value = { BookView Keeping };

    ghost view = { λ r. r.book };

    ghost invariant = { λ r. IsRun r.book r.store.keys r.store.scheme r.scratch.points };
}

/// The opening rows and the history of a book that was closed, and the sheet of its first month.
#[derive(Drop)]
pub(crate) struct Closed {
    pub opening: Vec<Row>,
    pub history: Vec<Entry>,
    pub sheet: Bytes,
}

impl Run {
    /// The machine of a book that has no entries, and room for a whole term. It fails only where memory runs out.
    pub fn of(alloc: Global, book: Book<Steady>) -> Result<Run, NoMemory>
        requires empty { book.history ≡ [] }
        requires room { limits.TERM ≤ book.room }
        ensures { IfOk result (λ run. run.history ≡ []) }
    {
        // the tables are those that it was opened with
        let _core = book.core();
        let store = RoundStore::of(&book);
        let scratch = Scratch::new(alloc, &store.scheme)?;
        Ok(Run {
            alloc,
            book,
            store,
            scratch,
        })
    }

    /// The keys and the scheme of its store.
    pub fn store(&self) -> &RoundStore {
        &self.store
    }

    /// Enters a call. It fails only where memory runs out, also where that is what the machine answers.
    pub fn enter(&mut self, call: Call) -> Result<Reply, NoMemory>
        requires room { length self.old.history < limits.TERM }
        requires formed { IsWellFormed (start_of self.old.opening) call }
        ensures opening { self.new.opening ≡ self.old.opening }
        ensures one_more { length self.new.history ≡ length self.old.history + 1 }
        ensures replies { IfOk result (Replies (start_of self.old.opening) call) }
    {
        let answered = self.book.apply(0, call);
        if let Reply::NoMemory = answered.reply {
            return Err(NoMemory);
        }
        Ok(answered.reply)
    }

    /// Enters a plan of this kind, with as many words as it takes. Where it is planned the nodes are asked, and its end is
    /// entered. It fails only where memory runs out.
    pub fn keep_up<N: Nodes>(
        &mut self,
        nodes: &mut N,
        kind: Upkeep,
        now: Moment,
        words: Words64,
    ) -> Result<(), NoMemory>
        requires timely { IsMoment now }
        requires number { length words ≡ rules.words_of kind }
        requires room { length self.old.history + 2 ≤ limits.TERM }
        ensures { OnOk result (length self.new.history ≤ length self.old.history + 2) }
    {
        let reply = self.enter(plan_call(kind, now, words))?;
        if !is_plan_of(kind, &reply) {
            return Ok(());
        }
        let found = ask(self.alloc, &self.store, &mut self.scratch, nodes, reply)?;
        let _ = self.enter(end_call(found, now))?;
        Ok(())
    }

    // The sheet of the first month.
    fn first_sheet(&self) -> Result<Bytes, NoMemory>
        ensures { IfOk result (λ text. text ≡ sheet_of self.now.tables self.now.tables.setup.first_month) }
    {
        let core = self.book.core();
        let month = core.settings().first_month;
        let statements = core.statements(month)?;
        sheet(self.alloc, month, statements.as_slice())
    }

    /// Makes the sheet of the first month, and closes the book. It fails only where memory runs out.
    pub fn close(self) -> Result<Closed, NoMemory>
        ensures closed { IfOk result (λ c. IsClosed c.opening.items c.history.items c.sheet) }
        ensures history { IfOk result (λ c. c.history.items ≡ self.history) }
    {
        let sheet = self.first_sheet()?;
        let Run {
            alloc: _,
            book,
            store: _,
            scratch: _,
        } = self;
        // its tables are the replay of its history
        let _core = book.core();
        let (_, opening, history) = book.close();
        Ok(Closed {
            opening,
            history,
            sheet,
        })
    }
}

// What is tried: the rows of a store that are noted, and then a book over a keeper of them, or a round at its desk.
use crate::devices::Devices;
use crate::founding::{founding_of, told_founding};
use crate::running::{Ran, Which, run};
use crate::told_rounds::{told_nodes, told_round};
use sat_base::{KeeperMem, NoMemory};
use sat_book::NotOpened;
use std::alloc::Global;
use std::mem;
use std::sync::Wait;
use trial_lines::{Answers, BoundedBook, Fields, LineErr, Store, told_open, told_reply, told_rows};

// A book has room for so many entries.
const TERM: u64 = 1000;

/// A store that is being made, a keeper of its rows, or a book over it; and the devices of the next round.
#[derive(Drop)]
pub struct Session<R: Wait + Drop> {
    rt: R,
    alloc: Global,
    store: Store,
    devices: Devices,
    keeper: Option<KeeperMem>,
    book: Option<BoundedBook<KeeperMem>>,
}

impl<R: Wait + Drop> Session<R> {
    /// No rows.
    pub fn new(rt: R, alloc: Global) -> Self {
        Session {
            rt,
            alloc,
            store: Store::new(alloc),
            devices: Devices::new(alloc),
            keeper: None,
            book: None,
        }
    }

    // No rows again, and neither keeper nor book.
    fn begin(&mut self) {
        self.store = Store::new(self.alloc);
        self.devices = Devices::new(self.alloc);
        self.keeper = None;
        self.book = None;
    }

    // The keeper that is there, or one of the rows that were noted.
    fn take_keeper(&mut self) -> Result<KeeperMem, NoMemory> {
        match mem::replace(&mut self.keeper, None) {
            Some(keeper) => Ok(keeper),
            None => self.store.keeper(),
        }
    }

    // Makes a store over the keeper.
    fn init(&mut self, fields: &mut Fields<'_>) -> Result<String, LineErr> {
        let founding = founding_of(self.alloc, fields)?;
        let mut keeper = self.take_keeper()?;
        let told = told_founding(self.alloc, &mut keeper, founding)?;
        self.keeper = Some(keeper);
        Ok(told)
    }

    // A book over the keeper.
    fn open(&mut self) -> Result<String, LineErr> {
        let keeper = self.take_keeper()?;
        match BoundedBook::open(self.alloc, keeper, TERM) {
            Ok(book) => {
                self.book = Some(book);
                Ok(String::from_str(self.alloc, "open")?)
            }
            Err(NotOpened { keeper, why }) => {
                self.keeper = Some(keeper);
                Ok(told_open(self.alloc, &why)?)
            }
        }
    }

    // The rows of a keeper without a book, a line each.
    fn rows(&self) -> Result<String, LineErr> {
        let Some(keeper) = &self.keeper else {
            return Err(LineErr::Bad);
        };
        Ok(told_rows(self.alloc, keeper.rows())?)
    }

    // Notes what the store or the next round has.
    fn note(&mut self, lines: &[&str], line: &str) -> Result<String, LineErr> {
        if self.keeper.is_some() {
            return Err(LineErr::Bad);
        }
        if !self.devices.note(line)? {
            self.store.note(lines, line)?;
        }
        Ok(String::from_str(self.alloc, "noted")?)
    }

    // Asks the book.
    fn ask(&mut self, line: &str) -> Result<String, LineErr> {
        let Some(book) = &mut self.book else {
            return Err(LineErr::Bad);
        };
        match book.ask_line(self.alloc, line)? {
            Some(reply) => Ok(told_reply(self.alloc, &reply)?),
            None => Ok(String::from_str(self.alloc, "full")?),
        }
    }

    fn close(&mut self) -> Result<String, LineErr> {
        let Some(book) = mem::replace(&mut self.book, None) else {
            return Err(LineErr::Bad);
        };
        let (keeper, entries) = book.close();
        self.keeper = Some(keeper);
        Ok(format!(in self.alloc; "entries {entries}")?)
    }

    // Makes a round.
    fn run(&mut self, which: Which) -> Result<String, LineErr> {
        let due = self.devices.due(which);
        if due.term == 0 || due.term > 65536 || self.keeper.is_some() {
            return Err(LineErr::Bad);
        }
        let keeper = self.store.keeper()?;
        let kit = self.devices.kit();
        let ran = run(&self.rt, self.alloc, keeper, due, kit)?;
        self.keep(&ran)
    }

    // Takes what a round leaves, and tells what came of it.
    fn keep(&mut self, ran: &Ran) -> Result<String, LineErr> {
        self.store.keep(ran.keeper.rows())?;
        self.devices.keep(&ran.kit.nodes)?;
        Ok(told_round(self.alloc, ran)?)
    }
}

impl<R: Wait + Drop> Answers for Session<R> {
    fn answer(&mut self, lines: &[&str], line: &str) -> Result<String, LineErr> {
        if line.starts_with("store ") {
            self.begin();
            return Ok(String::from_str(self.alloc, line)?);
        }
        if line == "close" {
            return self.close();
        }
        if self.book.is_some() {
            return self.ask(line);
        }
        match line {
            "open" => self.open(),
            "rows" => self.rows(),
            "audit" => self.run(Which::Audit),
            "repair" => self.run(Which::Repair),
            "tally" => self.run(Which::Tally),
            "nodes" => Ok(told_nodes(self.alloc, self.devices.held())?),
            _ => match line.strip_prefix("init ") {
                Some(rest) => self.init(&mut Fields::of_line(rest, 0)),
                None => self.note(lines, line),
            },
        }
    }
}

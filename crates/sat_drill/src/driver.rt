// The calls of a drill, turn by turn.
ghost use Rattle.std.specs.Prelude.{◌≡◌, ◌+◌, ◌<◌, ◌≤◌, [], length, IfOk, OnOk};
ghost use Rattle.sat_base.specs.declared.limits.TheConstants as limits;
ghost use Rattle.sat_base.specs.Moments.{IsMoment};

use crate::altering::Altering;
use crate::generator::Generator;
use crate::opening::{FIRST_MOMENT, open_book};
use crate::orders::Presented;
use crate::run::Run;
use crate::uploads::Uploads;
use machine_calls::{Call, Task, Wish};
use node_rounds::{Upkeep, words_of};
use sat_base::{Moment, Month, NoMemory};
use std::alloc::Global;

// So many nodes are added, numbered from 1.
const NODES: u8 = 12;

// The bytes that each node says are free.
const FREE: u64 = 1_000_000_000_000;

// The month that a drill closes, March 2026, and when.
const MONTH: Month = Month(24314);

const END: u64 = 1_775_001_600;

/// What makes the calls of a drill: a machine, nodes that are asked, and the words that say what each turn does.
#[derive(Drop)]
pub(crate) struct Driver {
    pub alloc: Global,
    pub run: Run,
    pub nodes: Altering,
    pub words: Generator,
    /// How many requests the customer made.
    pub requests: u64,
    /// The order that was settled last.
    pub remembered: Option<Presented>,
}

impl Driver {
    /// A store of no records but its own, nodes that hold nothing, and words from this number on. The one error is want of
    /// memory.
    pub fn new(alloc: Global, start: u64) -> Result<Driver, NoMemory>
        ensures { IfOk result (λ driver. driver.run.history ≡ []) }
    {
        let run = Run::of(alloc, open_book(alloc)?)?;
        let uploads = Uploads::new(alloc, run.store().scheme);
        Ok(Driver {
            alloc,
            run,
            nodes: Altering::new(alloc, uploads),
            words: Generator::of(start),
            requests: 0,
            remembered: None,
        })
    }

    /// Adds the nodes and the customer.
    pub fn begin(&mut self) -> Result<(), NoMemory>
        requires { self.old.run.history ≡ [] }
        ensures { OnOk result (length self.new.run.history ≡ 13) }
    {
        let now = Moment::of(FIRST_MOMENT);
        for before in 0..NODES {
            let id = before + 1;
            let wish = Wish::AddNode {
                request: u64::from(id),
                addr: u32::from_be_bytes([10, 0, id, 1]),
                port: 7000 + u16::from(id),
                free: FREE,
            };
            self.run.enter(Call::of_wish(self.alloc, now, wish))?;
        }
        let request = u64::from(NODES) + 1;
        let wish = Wish::AddCustomer { request };
        self.run.enter(Call::of_wish(self.alloc, now, wish))?;
        Ok(())
    }

    /// Makes the turn of this number, counted from 1: the next word says what it does.
    pub fn turn(&mut self, number: u64) -> Result<(), NoMemory>
        requires number { number ≤ 20000 }
        requires room { length self.old.run.history + 2 ≤ limits.TERM }
        ensures { OnOk result (length self.new.run.history ≤ length self.old.run.history + 2) }
    {
        let now = Moment::of(FIRST_MOMENT + 60 * number);
        let word = self.words.word();
        let choice = word / 8;
        match word % 8 {
            0 | 1 => self.upload(now, choice),
            2 | 3 => self.fetch(now, choice),
            4 => self.present_again(now),
            5 => self.keep_up(now, Upkeep::Audit),
            6 => self.keep_up(now, Upkeep::Repair),
            _ => self.tally(now),
        }
    }

    /// Closes the month.
    pub fn end(&mut self) -> Result<(), NoMemory>
        requires { length self.old.run.history < limits.TERM }
        ensures { OnOk result (length self.new.run.history ≡ length self.old.run.history + 1) }
    {
        let now = Moment::of(END);
        let wish = Wish::CloseMonth { month: MONTH };
        self.run.enter(Call::of_wish(self.alloc, now, wish))?;
        Ok(())
    }

    // Plans what the satellite does on its own account, asks the nodes of the plan, and ends it.
    fn keep_up(&mut self, now: Moment, kind: Upkeep) -> Result<(), NoMemory>
        requires timely { IsMoment now }
        requires room { length self.old.run.history + 2 ≤ limits.TERM }
        ensures { OnOk result (length self.new.run.history ≤ length self.old.run.history + 2) }
    {
        let words = self.words.words(self.alloc, words_of(kind))?;
        self.run.keep_up(&mut self.nodes, kind, now, words)
    }

    // Counts the bytes of the hour.
    fn tally(&mut self, now: Moment) -> Result<(), NoMemory>
        requires timely { IsMoment now }
        requires room { length self.old.run.history < limits.TERM }
        ensures { OnOk result (length self.new.run.history ≡ length self.old.run.history + 1) }
    {
        self.run.enter(Call::Own {
            now,
            task: Task::TallyHour,
        })?;
        Ok(())
    }
}

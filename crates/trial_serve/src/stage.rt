// The devices of the next run.
use crate::ended::MemEnded;
use crate::plans::{LanePlan, MemWorld, Source, post};
use crate::running::{line_of, point};
use crate::workers::{Worker, Workers};
use sat_base::{HoldGate, KeeperMem, MemConsole, NoMemory, Point};
use satellite_cli::World;
use std::alloc::Global;
use std::mem;
use std::sync::Wait;
use std::thread::Threads;
use trial_lines::{Fields, LineErr, Store, bytes_of, keeper_of, told_rows};

// A point to which nobody comes.
const NOWHERE: Point = Point::SessionRead { lane: u16::MAX };

/// What the next run has.
#[derive(Drop)]
pub struct Stage {
    alloc: Global,
    store: Store,
    input: Vec<u8>,
    keeper_failing: Vec<u64>,
    console_failing: Vec<u64>,
    workers: Workers,
    lanes: Vec<LanePlan>,
    drawer: Drawer,
    hold: Point,
    until: Point,
}

// Who draws from the moments and the words of the next lines. `init` draws from those of audits.
#[derive(Clone, Copy, Debug, PartialEq, Eq)]
enum Drawer {
    LastLane,
    Rounds(Worker),
}

impl Stage {
    /// No rows, no input and no lanes.
    pub fn new(alloc: Global) -> Self {
        Stage {
            alloc,
            store: Store::new(alloc),
            input: Vec::new(alloc),
            keeper_failing: Vec::new(alloc),
            console_failing: Vec::new(alloc),
            workers: Workers::new(alloc),
            lanes: Vec::new(alloc),
            drawer: Drawer::Rounds(Worker::Audit),
            hold: NOWHERE,
            until: NOWHERE,
        }
    }

    /// The answer to a line.
    pub fn answer<R: Threads + Wait + Sync>(
        &mut self,
        rt: &R,
        lines: &[&str],
        line: &str,
    ) -> Result<String, NoMemory> {
        if line.is_empty() || line.starts_with('#') {
            return Ok(String::from_str(self.alloc, line)?);
        }
        match self.taken(rt, lines, line) {
            Ok(answer) => Ok(answer),
            Err(LineErr::Bad) => Ok(String::from_str(self.alloc, "bad-line")?),
            Err(LineErr::NoMemory) => Err(NoMemory),
        }
    }

    fn taken<R: Threads + Wait + Sync>(
        &mut self,
        rt: &R,
        lines: &[&str],
        line: &str,
    ) -> Result<String, LineErr> {
        let mut fields = Fields::of_line(line, 0);
        match fields.word()? {
            "run" => self.run(rt, fields.rest(), true),
            "race" => self.run(rt, fields.rest(), false),
            "rows" => {
                fields.end()?;
                self.told_rows()
            }
            "store" => {
                *self = Stage::new(self.alloc);
                Ok(String::from_str(self.alloc, line)?)
            }
            word => {
                self.note(lines, line, word, fields)?;
                Ok(String::from_str(self.alloc, "noted")?)
            }
        }
    }

    fn note(
        &mut self,
        lines: &[&str],
        line: &str,
        word: &str,
        mut fields: Fields<'_>,
    ) -> Result<(), LineErr> {
        match word {
            "input" => {
                self.input = bytes_of(self.alloc, fields.rest())?;
                Ok(())
            }
            "fail" => self.fail(&mut fields),
            "lane" => self.add_lane(&mut fields),
            "link" | "links" | "fronts" => self.add_links(word, &mut fields),
            "moments" => {
                let moments = fields.numbers(self.alloc)?;
                self.source()?.moments = moments;
                fields.end()
            }
            "words" => self.note_words(&mut fields),
            "worker" => {
                self.drawer = Drawer::Rounds(self.workers.note(self.alloc, &mut fields)?);
                Ok(())
            }
            "holds" => self.workers.hold(self.alloc, &mut fields),
            "hold" => {
                self.hold = point(fields.word()?)?;
                self.until = point(fields.word()?)?;
                fields.end()
            }
            _ => self.store.note(lines, line),
        }
    }

    // What is drawn from next.
    fn source(&mut self) -> Result<&mut Source, LineErr> {
        match self.drawer {
            Drawer::Rounds(worker) => Ok(&mut self.workers.plan(worker).source),
            Drawer::LastLane => match self.lanes.last_mut() {
                Some(lane) => Ok(&mut lane.source),
                None => Err(LineErr::Bad),
            },
        }
    }

    fn fail(&mut self, fields: &mut Fields<'_>) -> Result<(), LineErr> {
        let what = fields.word()?;
        let numbers = fields.numbers(self.alloc)?;
        match what {
            "keeper" => self.keeper_failing = numbers,
            "console" => self.console_failing = numbers,
            _ => return Err(LineErr::Bad),
        }
        fields.end()
    }

    fn add_lane(&mut self, fields: &mut Fields<'_>) -> Result<(), LineErr> {
        let failing = fields.numbers(self.alloc)?;
        fields.end()?;
        self.drawer = Drawer::LastLane;
        Ok(self.lanes.push(LanePlan::new(self.alloc, failing))?)
    }

    fn add_links(&mut self, word: &str, fields: &mut Fields<'_>) -> Result<(), LineErr> {
        let alloc = self.alloc;
        let Some(lane) = self.lanes.last_mut() else {
            return Err(LineErr::Bad);
        };
        match word {
            "link" => {
                let failing = fields.numbers(alloc)?;
                lane.add_link(alloc, fields.rest(), failing)
            }
            "links" => {
                let count = fields.number()?;
                lane.add_links(alloc, count, fields.rest())
            }
            _ => lane.add_fronts(alloc, fields.rest()),
        }
    }

    fn note_words(&mut self, fields: &mut Fields<'_>) -> Result<(), LineErr> {
        let count: u16 = fields.number()?;
        let word: u64 = fields.number()?;
        let failing = fields.numbers(self.alloc)?;
        fields.end()?;
        let words = Vec::from_elem(self.alloc, word, usize::from(count))?;
        let source = self.source()?;
        source.words = words;
        source.failing = failing;
        Ok(())
    }

    // The devices of the next run, which the one behind it hasn't.
    fn world(&mut self) -> Result<MemWorld, LineErr> {
        let alloc = self.alloc;
        let Stage {
            alloc: _,
            store,
            input,
            keeper_failing,
            console_failing,
            workers,
            lanes,
            drawer: _,
            hold,
            until,
        } = mem::replace(self, Stage::new(alloc));
        let Workers {
            audit,
            repair,
            tally,
        } = workers;
        let mut posts = Vec::new(alloc);
        for plan in lanes {
            posts.push(post(alloc, plan))?;
        }
        Ok(World {
            console: MemConsole::of(alloc, input, console_failing),
            keeper: keeper_of(alloc, store.changes(), keeper_failing)?,
            posts,
            audit: audit.kit(alloc),
            repair: repair.kit(alloc),
            tally: tally.kit(alloc),
            gate: HoldGate::of(hold, until),
        })
    }

    // Runs the command, and tells of it, with or without the places of entries.
    fn run<R: Threads + Wait + Sync>(
        &mut self,
        rt: &R,
        words: &str,
        places: bool,
    ) -> Result<String, LineErr> {
        let line = line_of(self.alloc, words)?;
        let world = self.world()?;
        let ended = MemEnded::of(rt, self.alloc, &line, world)?;
        let text = ended.told(self.alloc, places)?;
        self.store.keep(ended.into_keeper(self.alloc).rows())?;
        Ok(text)
    }

    fn told_rows(&self) -> Result<String, LineErr> {
        let keeper = keeper_of(self.alloc, self.store.changes(), Vec::new(self.alloc))?;
        Ok(told_rows(self.alloc, keeper.rows())?)
    }
}

// The workers of rounds of a run in memory.
use crate::plans::Source;
use sat_base::{Held, Items, MemClock, MemNodes, MemTicks, MemWords, NoMemory, NodeId, SegId};
use satellite_cli::Kit;
use std::alloc::Global;
use trial_lines::{Fields, LineErr};

/// A worker of rounds.
#[derive(Clone, Copy, Debug, PartialEq, Eq)]
pub enum Worker {
    Audit,
    Repair,
    Tally,
}

impl Worker {
    /// The worker of this name.
    pub fn of(name: &str) -> Result<Worker, LineErr> {
        match name {
            "audit" => Ok(Worker::Audit),
            "repair" => Ok(Worker::Repair),
            "tally" => Ok(Worker::Tally),
            _ => Err(LineErr::Bad),
        }
    }
}

/// What a worker's kit is made of: so many ticks, the numbers of the asks that no answer comes to, what it draws from, and
/// the pieces that its nodes hold.
#[derive(Drop)]
pub struct KitPlan {
    pub ticks: u64,
    pub silent: Vec<u64>,
    pub source: Source,
    pub held: Vec<Held>,
}

/// A kit in memory.
pub type MemKit = Kit<MemNodes, MemClock, MemWords, MemTicks>;

impl KitPlan {
    /// No tick, and nothing to draw.
    pub fn new(alloc: Global) -> Self {
        KitPlan {
            ticks: 0,
            silent: Vec::new(alloc),
            source: Source::new(alloc),
            held: Vec::new(alloc),
        }
    }

    /// The kit.
    pub fn kit(self, alloc: Global) -> MemKit {
        let KitPlan {
            ticks,
            silent,
            source,
            held,
        } = self;
        let Source {
            moments,
            words,
            failing,
        } = source;
        Kit {
            nodes: MemNodes::of(alloc, held, silent),
            clock: MemClock::of(moments),
            words: MemWords::of(words, failing),
            ticks: MemTicks::of(ticks),
        }
    }
}

/// What the three kits are made of.
#[derive(Drop)]
pub struct Workers {
    pub audit: KitPlan,
    pub repair: KitPlan,
    pub tally: KitPlan,
}

impl Workers {
    /// No ticks.
    pub fn new(alloc: Global) -> Self {
        Workers {
            audit: KitPlan::new(alloc),
            repair: KitPlan::new(alloc),
            tally: KitPlan::new(alloc),
        }
    }

    /// What a worker's kit is made of.
    pub fn plan(&mut self, worker: Worker) -> &mut KitPlan {
        match worker {
            Worker::Audit => &mut self.audit,
            Worker::Repair => &mut self.repair,
            Worker::Tally => &mut self.tally,
        }
    }

    /// Gives a worker so many ticks, and takes the numbers of asks without an answer.
    pub fn note(&mut self, alloc: Global, fields: &mut Fields<'_>) -> Result<Worker, LineErr> {
        let worker = Worker::of(fields.word()?)?;
        let ticks = fields.number()?;
        let silent = fields.numbers(alloc)?;
        fields.end()?;
        let plan = self.plan(worker);
        plan.ticks = ticks;
        plan.silent = silent;
        Ok(worker)
    }

    /// Has the nodes of a worker hold a piece.
    pub fn hold(&mut self, alloc: Global, fields: &mut Fields<'_>) -> Result<(), LineErr> {
        let worker = Worker::of(fields.word()?)?;
        let piece = Held {
            node: NodeId(fields.number()?),
            segment: SegId(fields.number()?),
            index: fields.number()?,
            bytes: Items::of(fields.hex(alloc)?),
        };
        fields.end()?;
        Ok(self.plan(worker).held.push(piece)?)
    }
}

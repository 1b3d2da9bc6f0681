// What devices in memory are made of.
use crate::lane::TrialLane;
use sat_base::{HoldGate, KeeperMem, MemClock, MemConsole, MemLink, MemNodes, MemTicks, MemWords};
use satellite_cli::{Post, World};
use std::alloc::Global;
use trial_lines::{LineErr, bytes_of};

/// A clock's moments, and random words of which the draws of some numbers fail.
#[derive(Drop)]
pub struct Source {
    pub moments: Vec<u64>,
    pub words: Vec<u64>,
    pub failing: Vec<u64>,
}

impl Source {
    /// No moments and no words.
    pub fn new(alloc: Global) -> Self {
        Source {
            moments: Vec::new(alloc),
            words: Vec::new(alloc),
            failing: Vec::new(alloc),
        }
    }
}

/// A lane, whose waits of some numbers fail.
#[derive(Drop)]
pub struct LanePlan {
    pub links: Vec<MemLink>,
    pub failing: Vec<u64>,
    pub source: Source,
}

impl LanePlan {
    /// No connections.
    pub fn new(alloc: Global, failing: Vec<u64>) -> Self {
        LanePlan {
            links: Vec::new(alloc),
            failing,
            source: Source::new(alloc),
        }
    }

    /// Adds a connection with this input, whose calls of these numbers fail.
    pub fn add_link(
        &mut self,
        alloc: Global,
        text: &str,
        failing: Vec<u64>,
    ) -> Result<(), LineErr> {
        let input = bytes_of(alloc, text)?;
        Ok(self.links.push(MemLink::of(alloc, input, failing))?)
    }

    /// Adds so many connections with this input.
    pub fn add_links(&mut self, alloc: Global, count: u64, text: &str) -> Result<(), LineErr> {
        for _ in 0..count {
            self.add_link(alloc, text, Vec::new(alloc))?;
        }
        Ok(())
    }

    /// Adds a connection for each byte of this input, which ends before it.
    pub fn add_fronts(&mut self, alloc: Global, text: &str) -> Result<(), LineErr> {
        let whole = bytes_of(alloc, text)?;
        for end in 0..whole.len() {
            let mut input = Vec::new(alloc);
            input.extend_from_slice(&whole[..end])?;
            self.links.push(MemLink::of(alloc, input, Vec::new(alloc)))?;
        }
        Ok(())
    }
}

/// The devices of a run in memory.
pub type MemWorld = World<
    MemConsole,
    KeeperMem,
    TrialLane,
    MemNodes,
    MemClock,
    MemWords,
    MemTicks,
    HoldGate,
>;

/// What the worker of a lane has.
pub type MemPost = Post<TrialLane, MemClock, MemWords>;

/// What the worker of this lane has.
pub fn post(alloc: Global, plan: LanePlan) -> MemPost {
    let LanePlan {
        links,
        failing,
        source,
    } = plan;
    let Source {
        moments,
        words,
        failing: draws,
    } = source;
    Post {
        lane: TrialLane::of(alloc, links, failing),
        clock: MemClock::of(moments),
        words: MemWords::of(words, draws),
    }
}

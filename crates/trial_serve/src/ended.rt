// Runs over devices in memory.
use crate::lane::TrialLane;
use crate::plans::MemWorld;
use crate::running::run_over;
use crate::telling::{RunTold, told_run};
use sat_base::{HoldGate, KeeperMem, Line, MemClock, MemConsole, MemNodes, MemTicks, MemWords};
use satellite_cli::Ended;
use std::alloc::Global;
use std::mem;
use std::sync::Wait;
use std::thread::Threads;
use trial_lines::LineErr;

// The most lanes of a run.
const LANES: usize = 16;

type Devices = Ended<
    MemConsole,
    KeeperMem,
    TrialLane,
    MemNodes,
    MemClock,
    MemWords,
    MemTicks,
    HoldGate,
>;

/// What a run leaves.
pub struct MemEnded {
    ended: Devices,
}

// By hand, so that all devices are let go here, and not anew wherever they are.
impl Drop for MemEnded {
    fn drop(self) {
        let MemEnded { ended: _ } = self;
    }
}

impl MemEnded {
    /// Runs a command.
    pub fn of<R: Threads + Wait + Sync>(
        rt: &R,
        alloc: Global,
        line: &Line,
        world: MemWorld,
    ) -> Result<MemEnded, LineErr> {
        if world.posts.len() > LANES {
            return Err(LineErr::Bad);
        }
        Ok(MemEnded {
            ended: run_over(rt, alloc, line, world),
        })
    }

    /// What came of it, with or without the places of entries.
    pub fn told(&self, alloc: Global, places: bool) -> Result<String, LineErr> {
        let world = &self.ended.world;
        let told = RunTold {
            status: self.ended.status,
            console: world.console.written(),
            posts: &world.posts,
            late: world.gate.ran_out(),
            places,
        };
        told_run(alloc, &told, &self.ended.term)
    }

    /// The keeper.
    pub fn into_keeper(self, alloc: Global) -> KeeperMem {
        let mut ended = self;
        let none = KeeperMem::of(Vec::new(alloc), Vec::new(alloc));
        mem::replace(&mut ended.ended.world.keeper, none)
    }
}

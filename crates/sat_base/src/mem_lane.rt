// A lane of connections in memory.
ghost use Rattle.std.specs.Prelude.{◌≡◌, [], Some, IfOk, false, map, option_map};
ghost use Rattle.sat_base.specs.Console.{console_about};
ghost use Rattle.sat_base.specs.Lane.{Nexts, SomeIsOut, got_back};

use crate::failing::is_failing;
use crate::{Came, Lane, MemLink, NoMemory};
use std::alloc::Global;
use std::marker::Model;
use std::snapshot::Snapshot;

/// A lane of chosen connections, for tests. Its waits are numbered from 1, and those of chosen numbers fail. It keeps
/// what is given back.
#[derive(Drop)]
pub struct MemLane {
    links: Vec<MemLink>,
    // each as it came. A snapshot has no bytes
    came: Vec<Snapshot<MemLink>>,
    done: Vec<MemLink>,
    failing: Vec<u64>,
    calls: u64,
    given: u64,
    over: bool,
    faults: u64,
}

impl Model for MemLane {
    ghost use Rattle.std.specs.Prelude.{◌≡◌, ◌≤◌, ◌+◌, ◌⊎◌, Some, map, length, false, vec_capacity};
    ghost use Rattle.sat_base.specs.Console.{console_about};
    ghost use Rattle.sat_base.specs.Lane.{MemLaneView};

    ghost Value = { MemLaneView };

    ghost view = { λ l. record {
      coming = l.links.items;
      lane = record {
        links = Some (record { came = map (λ s. console_about s.value) l.came.items; done = map console_about l.done.items });
        given = l.given;
        over = l.over;
        faults = l.faults;
      };
      failing = l.failing.items;
      calls = l.calls;
    } };

    ghost invariant = { λ l. (length l.done.items ≤ length l.came.items)
        × (length l.came.items + length l.links.items ≤ vec_capacity l.came)
        × (length l.came.items + length l.links.items ≤ vec_capacity l.done)
        × ((l.over ≡ false) ⊎ (length l.links.items ≡ 0)) };
}

impl MemLane {
    /// A lane of these connections in order, whose waits of these numbers fail.
    pub fn of(alloc: Global, links: Vec<MemLink>, failing: Vec<u64>) -> Result<MemLane, NoMemory>
        ensures { IfOk result (λ l. l ≡ record {
          coming = links.items;
          lane = record { links = Some (record { came = []; done = [] }); given = 0; over = false; faults = 0 };
          failing = failing.items;
          calls = 0;
        }) }
    {
        let came = Vec::with_capacity(alloc, links.len())?;
        let done = Vec::with_capacity(alloc, links.len())?;
        Ok(MemLane {
            links,
            came,
            done,
            failing,
            calls: 0,
            given: 0,
            over: false,
            faults: 0,
        })
    }

    /// The connections that were given back.
    pub fn done(&self) -> &[MemLink]
        ensures { option_map (λ links. links.done) self.now.lane.links ≡ Some (map console_about result.now) }
    {
        &self.done
    }
}

impl Lane for MemLane {
    type Conn = MemLink;

    ghost about = { λ l. l.lane };

    fn next(&mut self) -> Came<MemLink> {
        let fails = is_failing(&mut self.calls, &self.failing);
        if self.over {
            return Came::Ended;
        }
        if fails {
            self.faults = self.faults.saturating_add(1);
            return Came::Failed;
        }
        if self.links.is_empty() {
            self.over = true;
            return Came::Ended;
        }
        let link = self.links.remove(0);
        self.came.push_reserved(Snapshot::of(&link));
        self.given = self.given.saturating_add(1);
        Came::Conn(link)
    }

    fn back(&mut self, conn: MemLink) {
        self.done.push_reserved(conn);
    }

    fn shut(&mut self, _is_stopped: bool) {}
}

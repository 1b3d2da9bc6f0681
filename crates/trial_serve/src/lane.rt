// A lane of very many connections.
use sat_base::{Came, Lane, MemLink};
use std::alloc::Global;

/// A lane of chosen connections, whose waits of chosen numbers fail. It keeps what is given back, and tells nothing.
#[derive(Drop)]
pub struct TrialLane {
    // the next one stands last
    coming: Vec<MemLink>,
    done: Vec<MemLink>,
    failing: Vec<u64>,
    waits: u64,
    given: u64,
    over: bool,
    faults: u64,
}

impl TrialLane {
    /// A lane of these connections, whose waits of these numbers fail, from 1.
    pub fn of(alloc: Global, links: Vec<MemLink>, failing: Vec<u64>) -> Self {
        let mut coming = links;
        coming.reverse();
        TrialLane {
            coming,
            done: Vec::new(alloc),
            failing,
            waits: 0,
            given: 0,
            over: false,
            faults: 0,
        }
    }

    /// The connections that were given back.
    pub fn done(&self) -> &[MemLink] {
        &self.done
    }
}

impl Lane for TrialLane {
    ghost use Rattle.std.specs.Prelude.{None};

    type Conn = MemLink;

    ghost about = { λ l. record {
      links = None;
      given = l.given;
      over = l.over;
      faults = l.faults;
    } };

    fn next(&mut self) -> Came<MemLink> {
        self.waits = self.waits.saturating_add(1);
        if self.over {
            return Came::Ended;
        }
        if self.failing.contains(&self.waits) {
            self.faults = self.faults.saturating_add(1);
            return Came::Failed;
        }
        match self.coming.pop() {
            Some(link) => {
                self.given = self.given.saturating_add(1);
                Came::Conn(link)
            }
            None => {
                self.over = true;
                Came::Ended
            }
        }
    }

    fn back(&mut self, conn: MemLink) {
        // where there is no memory it isn't kept
        let _kept = self.done.push(conn);
    }

    fn shut(&mut self, _is_stopped: bool) {}
}

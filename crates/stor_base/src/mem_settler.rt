ghost use Rattle.std.specs.Prelude.{◌≡◌, ◌++◌, ◌↔◌, [], Some, IsTrue, Contains};
ghost use Rattle.sat_base.specs.Outside.{CountsExactly, counted, raised, with_end};
ghost use Rattle.stor_base.specs.Offers.{FailsNext, IsChosen, Settling, answer_by, has_failed, offers_made};

use crate::failing::is_failing;
use crate::{OfferMade, Offered, Settler};
use std::alloc::Global;
use std::marker::Model;

/// A settler in memory, for tests. Its calls are numbered from 1. Those of chosen numbers fail, others of chosen numbers are
/// answered by [`Offered::Later`], and all the rest by [`Offered::Done`].
#[derive(Drop)]
pub struct MemSettler {
    offers: Vec<OfferMade>,
    later: Vec<u64>,
    failing: Vec<u64>,
    calls: u64,
    faults: u64,
}

impl Model for MemSettler {
    ghost Value = { Settling };

    ghost view = { λ s. record {
      offers = s.offers.items;
      later = s.later.items;
      failing = s.failing.items;
      calls = s.calls;
      faults = s.faults;
    } };
}

impl MemSettler {
    /// A settler that was offered nothing yet, with the numbers of the calls that it answers by `Later`, and of those that fail.
    pub fn of(alloc: Global, later: Vec<u64>, failing: Vec<u64>) -> Self
        ensures { result ≡ record {
          offers = [];
          later = later.items;
          failing = failing.items;
          calls = 0;
          faults = 0;
        } }
    {
        MemSettler {
            offers: Vec::new(alloc),
            later,
            failing,
            calls: 0,
            faults: 0,
        }
    }

    /// The orders that it was offered, each with its answer, in order.
    pub fn offers(&self) -> &[OfferMade]
        ensures { result.now ≡ self.now.offers }
    {
        &self.offers
    }

    // Counts a call, and tells whether it is one of those that are to fail.
    fn fails(&mut self) -> bool
        ensures failing { IsTrue result ↔ FailsNext self.old }
        ensures counted { self.new ≡ record self.old { calls = raised self.old.calls } }
    {
        is_failing(&mut self.calls, &self.failing)
    }

    // Whether the call that was counted last is to be answered by `Later`.
    fn waits(&self) -> bool
        ensures { IsTrue result ↔ Contains self.now.later self.now.calls }
    {
        self.later.contains(&self.calls)
    }
}

// The answer to a call that is to fail or not, and is to be answered by `Later` or not.
fn answer_by(fails: bool, waits: bool) -> Offered
    ensures { result ≡ answer_by fails waits }
{
    match (fails, waits) {
        (true, _) => Offered::Failed,
        (false, true) => Offered::Later,
        (false, false) => Offered::Done,
    }
}

impl Settler for MemSettler {
    ghost offers = { λ s. Some s.offers };

    ghost faults = { λ s. s.faults };

    fn offer(&mut self, _alloc: Global, order: &[u8; 123]) -> Offered
        ensures told { Some self.new.offers ≡ with_end (Some self.old.offers) (offers_made order.now result) }
        ensures faults { CountsExactly (has_failed result) self.old.faults self.new.faults }

        // Beside what every settler promises: which answer comes, and that nothing else changes.
        ensures answer { IsChosen self.old result }
        ensures stays { self.new ≡ record self.old {
          offers = self.old.offers ++ offers_made order.now result;
          calls = raised self.old.calls;
          faults = counted (has_failed result) self.old.faults;
        } }
    {
        let fails = self.fails();
        if self.offers.reserve(1).is_err() {
            return Offered::NoMemory;
        }
        let answer = answer_by(fails, self.waits());
        if fails {
            self.faults = self.faults.saturating_add(1);
        }
        self.offers.push_reserved(OfferMade {
            order: *order,
            answer,
        });
        answer
    }
}

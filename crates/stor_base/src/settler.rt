// Who settles the orders of a storage node.
ghost use Rattle.std.specs.Prelude.{◌≡◌, ℕ, List, Option};
ghost use Rattle.sat_base.specs.Outside.{CountsExactly, with_end};
ghost use Rattle.stor_base.specs.Offers.{has_failed, offers_made};
ghost use Rattle.stor_base.specs.declared.settler.OfferMade.{OfferMade};

use std::alloc::Global;

/// What an offer of an order is answered.
#[derive(Clone, Copy, Debug, PartialEq, Eq)]
pub enum Offered {
    /// The order is settled, or never will be.
    Done,
    /// It may be offered again.
    Later,
    /// The offer failed.
    Failed,
    /// There is no memory for the call.
    NoMemory,
}

/// An order that was offered, and what was answered.
#[derive(Clone, Copy, Debug, PartialEq, Eq)]
pub struct OfferMade {
    pub order: [u8; 123],
    pub answer: Offered,
}

/// Who settles orders, as a satellite. A real one tells nothing of what it was offered.
pub trait Settler: Drop {
    /// The orders that it was offered, each with its answer, in order, where it tells. A call for which there was no memory isn't
    /// among them.
    ghost offers: { Self → Option (List OfferMade) };

    /// How many offers have failed, up to 2^64 - 1.
    ghost faults: { Self → ℕ };

    /// Offers an order. It may wait for the answer.
    fn offer(&mut self, alloc: Global, order: &[u8; 123]) -> Offered
        ensures told { offers self.new ≡ with_end (offers self.old) (offers_made order.now result) }
        ensures faults { CountsExactly (has_failed result) (faults self.old) (faults self.new) };
}

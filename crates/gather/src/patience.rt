// How long nodes are asked.
ghost use Rattle.std.specs.Prelude.{◌≡◌, ◌≤◌, None, IfSome, OnOk, OnErr, length, vec_len};

use crate::round::HeardAt;
use sat_base::Ask;
use std::alloc::{AllocError, Global};
use std::time::Duration;

// How many times the limit of an ask all asks with its order may take.
const PATIENCE: u32 = 3;

// What the asks with an order have taken.
#[derive(Drop)]
struct Spent {
    order: [u8; 123],
    time: Duration,
}

/// The limit of an ask, and what the orders of the last round have taken so far.
#[derive(Drop)]
pub struct Patience {
    limit: Duration,
    // None before the first round.
    spent: Option<Vec<Spent>>,
}

impl Patience {
    /// With this limit of an ask, and nothing taken.
    pub(crate) fn new(limit: Duration) -> Patience
        ensures { (result.limit ≡ limit) × (result.spent ≡ None) }
    {
        Patience { limit, spent: None }
    }

    /// How long an ask may take whose order was not asked with before.
    pub(crate) fn limit(&self) -> Duration
        ensures { result ≡ self.now.limit }
    {
        self.limit
    }

    /// How long an ask with this order may take.
    pub(crate) fn left(&self, order: &[u8; 123]) -> Duration {
        let all = self.limit.saturating_mul(PATIENCE);
        self.limit.min(all.saturating_sub(self.taken(order)))
    }

    // What the asks with this order have taken. Those of one round ran at once, so that the longest counts.
    fn taken(&self, order: &[u8; 123]) -> Duration {
        let Some(spent) = &self.spent else {
            return Duration::ZERO;
        };
        spent
            .iter()
            .filter(|one| one.order == *order)
            .map(|one| one.time)
            .max()
            .unwrap_or(Duration::ZERO)
    }

    /// Adds what each ask of a round took that began at this moment. Orders that it didn't ask with are forgotten.
    pub(crate) fn spend(
        &mut self,
        alloc: Global,
        begun: Duration,
        asked: &[Ask],
        heard: &[HeardAt],
    ) -> Result<(), AllocError>
        ensures limit { self.new.limit ≡ self.old.limit }
        ensures few { OnOk result (IfSome self.new.spent (λ spent. vec_len spent ≤ length asked.now)) }
        ensures err { OnErr result (self.new ≡ self.old) }
    {
        let mut spent = Vec::with_capacity(alloc, asked.len())?;
        for (ask, (_, moment)) in asked.iter().zip(heard) {
            let took = moment.saturating_sub(begun);
            spent.push(Spent {
                order: ask.order,
                time: self.taken(&ask.order).saturating_add(took),
            })?;
        }
        self.spent = Some(spent);
        Ok(())
    }
}

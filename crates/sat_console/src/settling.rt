// The command `settle`.
ghost use Rattle.sat_console.specs.Answers.{IsSettleText};
ghost use Rattle.sat_console.specs.Run.{NoRefusal};

use crate::answer::answers;
use crate::run::{Answering, Outcome};
use order_limits::Keys;
use sat_base::NoMemory;
use std::alloc::Global;

/// Settles the orders of the input, at most `cap` of them.
#[derive(Drop)]
pub(crate) struct Settle {
    pub keys: Keys,
    pub cap: u32,
}

impl Answering for Settle {
    ghost is_text = { λ s. IsSettleText s.keys s.cap };

    ghost is_refusal = { λ s. NoRefusal };

    fn answer(&self, alloc: Global, input: &[u8]) -> Result<Outcome, NoMemory> {
        Ok(Outcome::Text(answers(alloc, &self.keys, self.cap, input)?))
    }
}

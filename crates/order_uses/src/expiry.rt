// What an index of uses lists.
ghost use Rattle.std.specs.Prelude.{◌≡◌};

use rows::Ranked;

/// A serial whose order waits for its expiry, in Unix seconds.
#[derive(Clone, Copy)]
pub(crate) struct Expiry {
    pub expires: u64,
    pub serial: u64,
}

/// By the moment, and by serial within one.
impl Ranked for Expiry {
    ghost use Rattle.order_uses.specs.Expiries.{expiry_rank};

    ghost rank = { expiry_rank };

    #[tactic(auto, unfolding(crate::specs::Expiries::expiry_place))]
    fn rank(&self) -> u128 {
        (self.expires as u128) * (1 << 64) + self.serial as u128
    }
}

/// A serial whose order may be due.
#[derive(Clone, Copy)]
pub(crate) struct Candidate {
    pub serial: u64,
}

/// By its serial.
impl Ranked for Candidate {
    ghost use Rattle.order_uses.specs.Expiries.{candidate_rank};

    ghost rank = { candidate_rank };

    fn rank(&self) -> u128 {
        self.serial as u128
    }
}

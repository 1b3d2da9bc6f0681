// The number by which a row stands among its kind, and that of the records here.
ghost use Rattle.std.specs.Prelude.{◌≡◌, ℕ};

use crate::{Containment, Customer, Kept, Tariff};

/// What has a rank: a number below 2^128 by which it stands among its kind.
pub trait Ranked: Drop {
    ghost rank: { Self → ℕ };

    /// The rank.
    fn rank(&self) -> u128
        ensures { result ≡ rank self.now };
}

/// By its node.
impl Ranked for Containment {
    ghost use Rattle.sat_base.specs.Ranks.{containment_rank};

    ghost rank = { containment_rank };

    fn rank(&self) -> u128 {
        self.node.0 as u128
    }
}

/// By its id.
impl Ranked for Customer {
    ghost use Rattle.sat_base.specs.Ranks.{customer_rank};

    ghost rank = { customer_rank };

    fn rank(&self) -> u128 {
        self.id.0 as u128
    }
}

/// By its caller.
impl Ranked for Kept {
    ghost use Rattle.sat_base.specs.Ranks.{kept_rank};

    ghost rank = { kept_rank };

    fn rank(&self) -> u128 {
        self.caller.0 as u128
    }
}

/// By the month that it begins in.
impl Ranked for Tariff {
    ghost use Rattle.sat_base.specs.Ranks.{tariff_rank};

    ghost rank = { tariff_rank };

    fn rank(&self) -> u128 {
        self.from.0 as u128
    }
}

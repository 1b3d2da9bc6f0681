// The order of tallies and statements.
use crate::{Statement, Tally};
use sat_base::Ranked;

/// By its hour, and then by its node.
impl Ranked for Tally {
    ghost use Rattle.tally_payout.specs.Ranks.{tally_rank};

    ghost rank = { tally_rank };

    fn rank(&self) -> u128 {
        self.hour.0 as u128 * (1 << 32) + self.node.0 as u128
    }
}

/// By its month, and then by its node.
impl Ranked for Statement {
    ghost use Rattle.tally_payout.specs.Ranks.{statement_rank};

    ghost rank = { statement_rank };

    fn rank(&self) -> u128 {
        self.month.0 as u128 * (1 << 32) + self.node.0 as u128
    }
}

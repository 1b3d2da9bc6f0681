ghost use Rattle.std.specs.Prelude.{◌≡◌};
ghost use Rattle.settlement.specs.Place.{place};

use order_limits::Action;
use rows::Ranked;
use sat_base::{Moment, NodeId, Serial};

/// One settled order.
#[derive(Clone, Copy, Debug, PartialEq, Eq)]
pub struct SettledRow {
    pub serial: Serial,
    pub node: NodeId,
    pub action: Action,
    /// Bytes moved.
    pub amount: u64,
    /// When it was settled.
    pub at: Moment,
}

/// The place of a serial and a node in the order of the rows: that of the serials, and of the nodes within
/// one. As a node is below 2^32, one number says it.
#[tactic(auto, unfolding(crate::specs::Place::place))]
pub(crate) fn place_of(serial: Serial, node: NodeId) -> u128
    ensures { result ≡ place serial node }
{
    (serial.0 as u128) * (1 << 32) + node.0 as u128
}

/// By its serial and its node.
impl Ranked for SettledRow {
    ghost use Rattle.settlement.specs.Rows.{key};

    ghost rank = { key };

    fn rank(&self) -> u128 {
        place_of(self.serial, self.node)
    }
}

// What settling answers.
ghost use Rattle.std.specs.Prelude.{◌≡◌};

use crate::row::SettledRow;
use order_limits::OrderErr;
use sat_base::{NoMemory, NodeId};

/// What an order would settle as.
#[derive(Clone, Copy, Debug, PartialEq, Eq)]
pub enum Settlable {
    /// It would add this row.
    New(SettledRow),
    /// Its serial and node have a row of the same amount, in bytes.
    Again { amount: u64 },
}

/// What an order settled as. Amounts are bytes.
#[derive(Clone, Copy, Debug, PartialEq, Eq)]
pub enum Settling {
    /// It was settled now.
    Settled { amount: u64 },
    /// It was settled before, with the same amount.
    Again { amount: u64 },
}

/// Why an order isn't settled: the first of these that holds.
#[derive(Clone, Copy, Debug, PartialEq, Eq)]
pub enum SettleErr {
    /// It has so many bytes, and not 123.
    Length { got: u64 },
    /// Its first byte is this and not 1.
    Version { got: u8 },
    /// Its second byte is this, which is no action's.
    Action { got: u8 },
    /// The tag of its limit is wrong.
    LimitTag,
    /// Its own tag is wrong.
    OrderTag,
    /// Its limit is for this node and not for the one that presents it.
    OtherNode { limit_node: NodeId },
    /// Its serial and node have a row of another amount, this one, in bytes.
    Differs { kept: u64 },
    /// It could be settled until this second, and that is over.
    Late { until: u64 },
    /// Its amount is above its limit, this one, in bytes.
    OverLimit { limit: u64 },
    /// The rows number the cap.
    SettledFull { cap: u32 },
    /// There is no memory for the row.
    NoMemory,
}

impl From<OrderErr> for SettleErr {
    ghost use Rattle.settlement.specs.Refusals.{as_settle};

    ghost from_gives = { λ e r. r ≡ as_settle e };

    fn from(e: OrderErr) -> Self {
        match e {
            OrderErr::Length { got } => SettleErr::Length { got },
            OrderErr::Version { got } => SettleErr::Version { got },
            OrderErr::Action { got } => SettleErr::Action { got },
            OrderErr::LimitTag => SettleErr::LimitTag,
            OrderErr::OrderTag => SettleErr::OrderTag,
        }
    }
}

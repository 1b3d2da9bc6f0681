// One row: an order, what was served under it, and whether it is settled.
use rows::Ranked;
use sat_base::Serial;

/// What is kept of a serial.
#[derive(Clone, Copy, Debug, PartialEq, Eq)]
pub struct OrderUse {
    pub serial: Serial,
    /// The bytes of the order of the greatest amount.
    pub order: [u8; 123],
    /// How many bytes were served under the serial.
    pub served: u64,
    /// Whether the order is settled, or never will be.
    pub done: bool,
}

/// By its serial.
impl Ranked for OrderUse {
    ghost use Rattle.order_uses.specs.Uses.{use_rank};

    ghost rank = { use_rank };

    fn rank(&self) -> u128 {
        self.serial.0 as u128
    }
}

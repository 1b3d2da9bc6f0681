// What the satellite gives leave for at several nodes at once, and how long it holds.
ghost use Rattle.std.specs.Prelude.{◌≡◌};

use crate::limit::{Action, Limit};
use sat_base::{At, CustomerId, Moment, SegId, Serial};

/// How long a limit of the satellite holds, in seconds: a day.
pub const LIFE: u64 = 86400;

/// How long after its limit expired an order can be settled, in seconds: two days.
pub const SETTLE_TIME: u64 = 172_800;

/// All of a limit but its place: the same at each node of an offer or a plan.
#[derive(Clone, Copy)]
pub struct Grant {
    pub action: Action,
    pub serial: Serial,
    pub segment: SegId,
    /// How many bytes may be moved at each place.
    pub limit: u64,
    pub issued: Moment,
    /// Whose it is; 0 is the satellite itself.
    pub customer: CustomerId,
}

impl Grant {
    ghost use Rattle.order_limits.specs.Grant.{limit_at};

    /// The limit at a place. It expires a day after it was issued.
    pub fn at(&self, place: At) -> Limit
        ensures { result ≡ limit_at self.now place }
    {
        let issued = self.issued.seconds();
        Limit {
            action: self.action,
            serial: self.serial,
            node: place.node,
            segment: self.segment,
            index: place.index,
            limit: self.limit,
            issued,
            expires: issued + LIFE,
            customer: self.customer,
        }
    }
}

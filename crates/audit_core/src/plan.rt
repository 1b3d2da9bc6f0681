// What an audit asks, and what it hears.
ghost use Rattle.std.specs.Prelude.{◌≡◌, IfOk};

use sat_base::{At, Fetched, Items, Moment, NoMemory, SegId, Serial};
use std::alloc::Global;

/// An audit of one stripe of a segment: which pieces are asked for their share of it.
#[derive(PartialEq, Eq, Drop)]
pub struct AuditPlan {
    /// The plan's own number.
    pub plan: u64,
    pub segment: SegId,
    /// The segment's version when it was planned.
    pub version: u64,
    /// The stripe, counted from 0.
    pub stripe: u64,
    /// The serial of the order limits that go with its asks.
    pub serial: Serial,
    pub issued: Moment,
    /// The pieces that are asked, by rising index.
    pub asked: Items<At>,
}

impl AuditPlan {
    /// The same plan again.
    pub fn copy(&self, alloc: Global) -> Result<AuditPlan, NoMemory>
        ensures { IfOk result (λ plan. plan ≡ self.now) }
    {
        Ok(AuditPlan {
            plan: self.plan,
            segment: self.segment,
            version: self.version,
            stripe: self.stripe,
            serial: self.serial,
            issued: self.issued,
            asked: self.asked.copy(alloc)?,
        })
    }
}

/// What was heard of the piece of one index.
#[derive(Drop)]
pub struct Heard {
    pub index: u8,
    pub what: Fetched,
}

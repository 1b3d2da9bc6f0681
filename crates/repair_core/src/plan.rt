// What a repair is to do, and what comes of it.
ghost use Rattle.std.specs.Prelude.{◌≡◌, IfOk};

use sat_base::{At, Items, Moment, NoMemory, SegId, Serial};
use std::alloc::Global;

/// A repair of a segment: which pieces are read, and where fresh ones are to lie.
#[derive(PartialEq, Eq, Drop)]
pub struct RepairPlan {
    /// The plan's own number.
    pub plan: u64,
    /// The segment that is repaired.
    pub segment: SegId,
    /// The segment's version when it was planned.
    pub version: u64,
    /// The serial of the order limits that go with its asks.
    pub serial: Serial,
    /// When it was planned.
    pub issued: Moment,
    /// The bytes of the segment.
    pub len: u64,
    /// The pieces that are read, by rising index.
    pub sources: Items<At>,
    /// The pieces that are made afresh, by rising index, and where they are to lie.
    pub targets: Items<At>,
}

impl RepairPlan {
    /// The same plan again.
    pub fn copy(&self, alloc: Global) -> Result<RepairPlan, NoMemory>
        ensures { IfOk result (λ plan. plan ≡ self.now) }
    {
        Ok(RepairPlan {
            plan: self.plan,
            segment: self.segment,
            version: self.version,
            serial: self.serial,
            issued: self.issued,
            len: self.len,
            sources: self.sources.copy(alloc)?,
            targets: self.targets.copy(alloc)?,
        })
    }
}

/// A repair that makes the piece of a node that leaves afresh elsewhere.
#[derive(PartialEq, Eq, Drop)]
pub struct ExitPlan {
    /// The piece of the node that leaves.
    pub leaving: At,
    /// The repair.
    pub plan: RepairPlan,
}

impl ExitPlan {
    /// The same plan again.
    pub fn copy(&self, alloc: Global) -> Result<ExitPlan, NoMemory>
        ensures { IfOk result (λ plan. plan ≡ self.now) }
    {
        Ok(ExitPlan {
            leaving: self.leaving,
            plan: self.plan.copy(alloc)?,
        })
    }
}

ghost use Rattle.std.specs.Prelude.{◌≡◌, IfOk};

use crate::refusal::Refusal;
use audit_core::{AuditPlan, Checked, RecheckPlan};
use repair_core::{ExitPlan, RepairPlan};
use sat_base::{Done, Hour, Indexes, Items, Month, NoMemory, NodeId, Place};
use std::alloc::Global;
use tally_payout::Statement;

/// What the machine answers. Amounts are bytes.
#[derive(Drop)]
pub enum Reply {
    /// A numbered request is done, now or at an earlier time.
    Done(Done),
    /// The order was settled now.
    Settled {
        amount: u64,
    },
    /// The order was settled before.
    Again {
        amount: u64,
    },
    /// The node's free bytes are noted.
    FreeSet,
    /// What a node's operator is paid for a month.
    Statement(Statement),
    /// The audit is planned: where its nodes are asked.
    AuditPlanned {
        plan: AuditPlan,
        places: Items<Place>,
    },
    /// The audit ended. `contained` are the indexes whose nodes are contained now, and `answered` counts the shares.
    AuditEnded {
        clear: bool,
        blamed: Indexes,
        missing: Indexes,
        contained: Indexes,
        answered: u8,
    },
    /// A silent node is to be asked here.
    RecheckPlanned {
        plan: RecheckPlan,
        place: Place,
    },
    /// The silent node was asked again, so often.
    RecheckEnded {
        checked: Checked,
        tries: u8,
    },
    /// The containment of the plan is gone.
    Gone,
    /// The repair is planned: where pieces are read, and where fresh ones are to lie.
    RepairPlanned {
        plan: RepairPlan,
        sources: Items<Place>,
        targets: Items<Place>,
    },
    /// The segment has this version now.
    RepairEnded {
        version: u64,
    },
    /// The repair made nothing.
    Unrepaired,
    /// The segment has another version than the planned one; 0 where it is gone.
    Superseded {
        planned: u64,
        now: u64,
    },
    /// The hour is counted, at so many nodes.
    Tallied {
        hour: Hour,
        nodes: u32,
    },
    /// The month is closed, now or at an earlier time.
    Closed {
        month: Month,
        fresh: bool,
    },
    /// The machine stops.
    Stopping,
    /// The node leaves.
    Exiting {
        node: NodeId,
    },
    /// The node has left.
    Exited {
        node: NodeId,
    },
    /// A piece of a node that leaves is to be made afresh.
    ExitPlanned {
        plan: ExitPlan,
        sources: Items<Place>,
        target: Place,
    },
    /// The rates hold from this month on.
    RatesSet {
        month: Month,
    },
    Refused(Refusal),
    /// The store failed to keep the step, between these two counts of its faults.
    StoreFault {
        before: u64,
        after: u64,
    },
    /// Memory ran out.
    NoMemory,
}

impl Reply {
    /// The same reply again.
    pub fn copy(&self, alloc: Global) -> Result<Reply, NoMemory>
        ensures { IfOk result (λ reply. reply ≡ self.now) }
    {
        match self {
            Reply::Done(done) => copy_done(alloc, done),
            Reply::Settled { amount } => Ok(Reply::Settled { amount: *amount }),
            Reply::Again { amount } => Ok(Reply::Again { amount: *amount }),
            Reply::FreeSet => Ok(Reply::FreeSet),
            Reply::Statement(statement) => Ok(Reply::Statement(*statement)),
            Reply::AuditPlanned { plan, places } => copy_audit_planned(alloc, plan, places),
            Reply::AuditEnded {
                clear,
                blamed,
                missing,
                contained,
                answered,
            } => Ok(Reply::AuditEnded {
                clear: *clear,
                blamed: blamed.copy(alloc)?,
                missing: missing.copy(alloc)?,
                contained: contained.copy(alloc)?,
                answered: *answered,
            }),
            Reply::RecheckPlanned { plan, place } => Ok(Reply::RecheckPlanned {
                plan: *plan,
                place: *place,
            }),
            Reply::RecheckEnded { checked, tries } => Ok(Reply::RecheckEnded {
                checked: *checked,
                tries: *tries,
            }),
            Reply::Gone => Ok(Reply::Gone),
            Reply::RepairPlanned {
                plan,
                sources,
                targets,
            } => copy_repair_planned(alloc, plan, sources, targets),
            Reply::RepairEnded { version } => Ok(Reply::RepairEnded { version: *version }),
            Reply::Unrepaired => Ok(Reply::Unrepaired),
            Reply::Superseded { planned, now } => Ok(Reply::Superseded {
                planned: *planned,
                now: *now,
            }),
            Reply::Tallied { hour, nodes } => Ok(Reply::Tallied {
                hour: *hour,
                nodes: *nodes,
            }),
            Reply::Closed { month, fresh } => Ok(Reply::Closed {
                month: *month,
                fresh: *fresh,
            }),
            Reply::Stopping => Ok(Reply::Stopping),
            Reply::Exiting { node } => Ok(Reply::Exiting { node: *node }),
            Reply::Exited { node } => Ok(Reply::Exited { node: *node }),
            Reply::ExitPlanned {
                plan,
                sources,
                target,
            } => copy_exit_planned(alloc, plan, sources, *target),
            Reply::RatesSet { month } => Ok(Reply::RatesSet { month: *month }),
            Reply::Refused(refusal) => Ok(Reply::Refused(*refusal)),
            Reply::StoreFault { before, after } => Ok(Reply::StoreFault {
                before: *before,
                after: *after,
            }),
            Reply::NoMemory => Ok(Reply::NoMemory),
        }
    }
}

// The replies whose copies take memory.

fn copy_done(alloc: Global, done: &Done) -> Result<Reply, NoMemory>
    ensures { IfOk result (λ reply. reply ≡ Reply.Done done.now) }
{
    Ok(Reply::Done(done.copy(alloc)?))
}

fn copy_audit_planned(
    alloc: Global,
    plan: &AuditPlan,
    places: &Items<Place>,
) -> Result<Reply, NoMemory>
    ensures { IfOk result (λ reply. reply ≡ Reply.AuditPlanned plan.now places.now) }
{
    Ok(Reply::AuditPlanned {
        plan: plan.copy(alloc)?,
        places: places.copy(alloc)?,
    })
}

fn copy_repair_planned(
    alloc: Global,
    plan: &RepairPlan,
    sources: &Items<Place>,
    targets: &Items<Place>,
) -> Result<Reply, NoMemory>
    ensures { IfOk result (λ reply. reply ≡ Reply.RepairPlanned plan.now sources.now targets.now) }
{
    Ok(Reply::RepairPlanned {
        plan: plan.copy(alloc)?,
        sources: sources.copy(alloc)?,
        targets: targets.copy(alloc)?,
    })
}

fn copy_exit_planned(
    alloc: Global,
    plan: &ExitPlan,
    sources: &Items<Place>,
    target: Place,
) -> Result<Reply, NoMemory>
    ensures { IfOk result (λ reply. reply ≡ Reply.ExitPlanned plan.now sources.now target) }
{
    Ok(Reply::ExitPlanned {
        plan: plan.copy(alloc)?,
        sources: sources.copy(alloc)?,
        target,
    })
}

// What is done on the satellite's own account, and the calls that plan it and end it.
ghost use Rattle.std.specs.Prelude.{◌≡◌};
ghost use Rattle.node_rounds.specs.Upkeep as rules;

use audit_core::{Checked, Judged, RecheckPlan};
use machine_calls::{Call, Refusal, Reply, Task};
use repair_core::RepairOutcome;
use sat_base::{Moment, Words64};
use sat_sessions::RoundEnd;

/// What a part of a round does.
#[derive(Clone, Copy)]
pub enum Upkeep {
    /// Asks a silent node again.
    Recheck,
    /// Audits a stripe of a segment.
    Audit,
    /// Repairs a segment.
    Repair,
    /// Moves a piece of a node that leaves.
    Exit,
}

/// What a part of a round found, which its end tells.
#[derive(Drop)]
pub enum Found {
    Recheck { plan: RecheckPlan, checked: Checked },
    Audit(Judged),
    Repair(RepairOutcome),
    Exit(RepairOutcome),
}

/// How many random words a plan takes.
pub fn words_of(kind: Upkeep) -> usize
    ensures { result ≡ rules.words_of kind }
{
    match kind {
        Upkeep::Recheck => 0,
        Upkeep::Audit => 2,
        Upkeep::Repair | Upkeep::Exit => 128,
    }
}

// The task that plans it.
fn plan_task(kind: Upkeep, words: Words64) -> Task
    ensures { result ≡ rules.plan_task kind words }
{
    match kind {
        Upkeep::Recheck => Task::PlanRecheck,
        Upkeep::Audit => Task::PlanAudit { words },
        Upkeep::Repair => Task::PlanRepair { words },
        Upkeep::Exit => Task::PlanExit { words },
    }
}

/// The call that plans it.
pub fn plan_call(kind: Upkeep, now: Moment, words: Words64) -> Call
    ensures { result ≡ rules.plan_call kind now words }
{
    Call::Own {
        now,
        task: plan_task(kind, words),
    }
}

/// Whether a reply holds its plan.
pub fn is_plan_of(kind: Upkeep, reply: &Reply) -> bool
    ensures { result ≡ rules.is_plan_of kind reply.now }
{
    match kind {
        Upkeep::Recheck => matches!(reply, Reply::RecheckPlanned { .. }),
        Upkeep::Audit => matches!(reply, Reply::AuditPlanned { .. }),
        Upkeep::Repair => matches!(reply, Reply::RepairPlanned { .. }),
        Upkeep::Exit => matches!(reply, Reply::ExitPlanned { .. }),
    }
}

// The task that ends it.
fn end_task(found: Found) -> Task
    ensures { result ≡ rules.end_task found }
{
    match found {
        Found::Recheck { plan, checked } => Task::EndRecheck { plan, checked },
        Found::Audit(judged) => Task::EndAudit { judged },
        Found::Repair(outcome) => Task::EndRepair { outcome },
        Found::Exit(outcome) => Task::EndExit { outcome },
    }
}

/// The call that ends it.
pub fn end_call(found: Found, now: Moment) -> Call
    ensures { result ≡ rules.end_call found now }
{
    Call::Own {
        now,
        task: end_task(found),
    }
}

// Why a round ends after a reply, if it does.
pub(crate) fn went_at(reply: &Reply) -> Option<RoundEnd>
    ensures { result ≡ rules.went_at reply.now }
{
    match reply {
        Reply::Refused(Refusal::Stopped) => Some(RoundEnd::Stopped),
        _ => None,
    }
}

// How a round ends whose last part went so.
pub(crate) fn end_of(went: Option<RoundEnd>) -> RoundEnd
    ensures { result ≡ rules.end_of went }
{
    match went {
        Some(end) => end,
        None => RoundEnd::Through,
    }
}

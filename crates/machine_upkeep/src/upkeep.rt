// What comes of each task of the satellite's own.
ghost use Rattle.std.specs.Prelude.{◌≡◌, [], IfOk};
ghost use Rattle.machine_calls.specs.declared.call.Call.{Call};
ghost use Rattle.machine_step.specs.Bounds.{IsValid};
ghost use Rattle.machine_step.specs.Step.{case_of, IsWellFormed};
ghost use Rattle.machine_store.specs.Prepared.{Holds};
ghost use Rattle.machine_store.specs.Store.{tables_of, GoesByTables};

use crate::end_audit::end_audit;
use crate::end_exit::end_exit;
use crate::end_recheck::end_recheck;
use crate::end_repair::end_repair;
use crate::plan_audit::plan_audit;
use crate::plan_exit::plan_exit;
use crate::plan_recheck::plan_recheck;
use crate::plan_repair::plan_repair;
use crate::tally_hour::tally_hour;
use machine_calls::Task;
use machine_store::{Prepared, Store, risen};
use sat_base::{Moment, NoMemory};
use std::alloc::Global;

/// The reply and the changes of a task at a moment, where the machine isn't stopped. The tables stay as they are. Nodes that
/// stopped serving are counted before ([`refresh`](machine_store::refresh)). It fails only where memory runs out.
pub fn upkeep_case(
    alloc: Global,
    store: &Store,
    now: Moment,
    task: &Task,
) -> Result<Prepared, NoMemory>
    requires valid { IsValid (tables_of store.now) }
    requires own { GoesByTables store.now }
    requires fresh { store.now.segments.pending ≡ [] }
    requires formed { IsWellFormed (tables_of store.now) (Call.Own now task.now) }
    ensures { IfOk result (λ p. Holds p (case_of (tables_of store.now) (Call.Own now task.now))) }
{
    let time = risen(store, now);
    match task {
        Task::PlanAudit { words } => plan_audit(alloc, store, time, words.as_slice()),
        Task::PlanRepair { words } => plan_repair(alloc, store, time, words.as_slice()),
        Task::PlanExit { words } => plan_exit(alloc, store, time, words.as_slice()),
        Task::EndAudit { judged } => end_audit(alloc, store, time, judged),
        Task::PlanRecheck => plan_recheck(alloc, store, time),
        Task::EndRecheck { plan, checked } => end_recheck(alloc, store, time, plan, *checked),
        Task::EndRepair { outcome } => end_repair(alloc, store, time, outcome),
        Task::TallyHour => tally_hour(alloc, store, time),
        Task::EndExit { outcome } => end_exit(alloc, store, time, outcome),
    }
}

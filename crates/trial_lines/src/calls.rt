// Calls, one a line: the name, the moment, and then the fields in their order.
ghost use Rattle.std.specs.Prelude.{IfOk};
ghost use Rattle.machine_step.specs.Step.{IsSchemeOf, IsWellFormed};
ghost use Rattle.machine_step.specs.Tables.{Tables};

use crate::audits::{end_audit, end_recheck, plan_audit, plan_recheck};
use crate::fields::{Fields, LineErr};
use crate::repairs::{end_exit, end_repair, plan_exit, plan_repair};
use crate::requests::request;
use machine_calls::{Call, Task};
use order_limits::Keys;
use sat_base::{Moment, Scheme};
use std::alloc::Global;

// A request, which is well formed for any tables.
fn any_request(alloc: Global, keys: &Keys, fields: &mut Fields<'_>) -> Result<Call, LineErr>
    ensures { IfOk result (λ call. (t : Tables) → IsWellFormed t call) }
{
    request(alloc, keys, fields)
}

// NOW.
fn tally_hour(fields: &mut Fields<'_>) -> Result<Call, LineErr>
    ensures { IfOk result (λ call. (t : Tables) → IsWellFormed t call) }
{
    let now = Moment::of(fields.number()?);
    fields.end()?;
    Ok(Call::Own {
        now,
        task: Task::TallyHour,
    })
}

/// The call that a line says, of a store with these keys and this scheme.
#[tactic(auto, using(crate::proofs::CallLemmas::of_any))]
pub fn call_of(
    alloc: Global,
    keys: &Keys,
    scheme: &Scheme,
    fields: &mut Fields<'_>,
) -> Result<Call, LineErr>
    ensures { IfOk result (λ call. (t : Tables) → IsSchemeOf t.setup scheme.now → IsWellFormed t call) }
{
    let mut ahead = *fields;
    match ahead.word()? {
        "plan-audit" => plan_audit(alloc, &mut ahead),
        "end-audit" => end_audit(alloc, scheme, &mut ahead),
        "plan-recheck" => plan_recheck(&mut ahead),
        "end-recheck" => end_recheck(&mut ahead),
        "plan-repair" => plan_repair(alloc, &mut ahead),
        "end-repair" => end_repair(alloc, scheme, &mut ahead),
        "tally-hour" => tally_hour(&mut ahead),
        "plan-exit" => plan_exit(alloc, &mut ahead),
        "end-exit" => end_exit(alloc, scheme, &mut ahead),
        _ => any_request(alloc, keys, fields),
    }
}

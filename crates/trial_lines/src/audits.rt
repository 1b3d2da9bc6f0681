// Audits and rechecks, with what the nodes gave.
ghost use Rattle.std.specs.Prelude.{◌≡◌, false, All, IfOk};
ghost use Rattle.audit_core.specs.Heard.{heard_indexes, is_out_of_memory, place_indexes};
ghost use Rattle.machine_step.specs.Step.{IsSchemeOf, IsWellFormed};
ghost use Rattle.machine_step.specs.Tables.{Tables};

use crate::fields::{Fields, LineErr};
use crate::plans::{audit_plan, recheck_plan};
use crate::requests::words;
use audit_core::{Checked, Heard, judge};
use bw_decode::Scratch;
use machine_calls::{Call, Task};
use sat_base::{At, Fetched, Items, Moment, Scheme};
use std::alloc::Global;
use trial_indexes::{are_rising, indexes_of};

// NOW WORDS, of which there are two.
pub(crate) fn plan_audit(alloc: Global, fields: &mut Fields<'_>) -> Result<Call, LineErr>
    ensures { IfOk result (λ call. (t : Tables) → IsWellFormed t call) }
{
    let now = Moment::of(fields.number()?);
    let words = words(alloc, 2, fields)?;
    fields.end()?;
    Ok(Call::Own {
        now,
        task: Task::PlanAudit { words },
    })
}

// A share in hexadecimal digits, `missing` or `silent`.
fn answer(alloc: Global, list: &mut Fields<'_>) -> Result<Fetched, LineErr>
    ensures { IfOk result (λ what. is_out_of_memory what ≡ false) }
{
    let mut ahead = *list;
    let what = match ahead.word()? {
        "missing" => Fetched::Missing,
        "silent" => Fetched::NoAnswer,
        _ => return Ok(Fetched::Share(Items::of(list.hex(alloc)?))),
    };
    *list = ahead;
    Ok(what)
}

// What is heard of each piece, in order.
fn read_heard(alloc: Global, pieces: &[At], fields: &mut Fields<'_>) -> Result<Vec<Heard>, LineErr>
    ensures indexes { IfOk result (λ heard. heard_indexes heard.items ≡ place_indexes pieces.now) }
    ensures told { IfOk result (λ heard. All (λ one. is_out_of_memory one.what ≡ false) heard.items) }
{
    let mut list = fields.list()?;
    let mut heard = Vec::new(alloc);
    for piece in pieces {
        let what = answer(alloc, &mut list)?;
        heard.push(Heard {
            index: piece.index,
            what,
        })?;
    }
    list.end()?;
    Ok(heard)
}

// NOW, the plan, and the answers of the pieces that it asks, apart by commas.
pub(crate) fn end_audit(
    alloc: Global,
    scheme: &Scheme,
    fields: &mut Fields<'_>,
) -> Result<Call, LineErr>
    ensures { IfOk result (λ call. (t : Tables) → IsSchemeOf t.setup scheme.now → IsWellFormed t call) }
{
    let now = Moment::of(fields.number()?);
    let plan = audit_plan(alloc, fields)?;
    let indexes = indexes_of(alloc, plan.asked.as_slice())?;
    if !are_rising(indexes.as_slice(), scheme.n) {
        return Err(LineErr::Bad);
    }
    let heard = Items::of(read_heard(alloc, plan.asked.as_slice(), fields)?);
    fields.end()?;
    let mut scratch = Scratch::new(alloc, scheme)?;
    match judge(alloc, &mut scratch, scheme, plan, heard) {
        Ok(judged) => Ok(Call::Own {
            now,
            task: Task::EndAudit { judged },
        }),
        Err(_) => Err(LineErr::NoMemory),
    }
}

// NOW.
pub(crate) fn plan_recheck(fields: &mut Fields<'_>) -> Result<Call, LineErr>
    ensures { IfOk result (λ call. (t : Tables) → IsWellFormed t call) }
{
    let now = Moment::of(fields.number()?);
    fields.end()?;
    Ok(Call::Own {
        now,
        task: Task::PlanRecheck,
    })
}

// NOW, the plan, and `pass`, `fail` or `silent`.
pub(crate) fn end_recheck(fields: &mut Fields<'_>) -> Result<Call, LineErr>
    ensures { IfOk result (λ call. (t : Tables) → IsWellFormed t call) }
{
    let now = Moment::of(fields.number()?);
    let plan = recheck_plan(fields)?;
    let checked = match fields.word()? {
        "pass" => Checked::Pass,
        "fail" => Checked::Fail,
        "silent" => Checked::Silent,
        _ => return Err(LineErr::Bad),
    };
    fields.end()?;
    Ok(Call::Own {
        now,
        task: Task::EndRecheck { plan, checked },
    })
}

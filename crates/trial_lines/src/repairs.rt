// Repairs and exits, with what came of them.
ghost use Rattle.std.specs.Prelude.{◌≡◌, true, false, All, IfOk, IsTrue};
ghost use Rattle.bw_decode.specs.Near.{Rises};
ghost use Rattle.machine_step.specs.Step.{IsMendedBy, IsSchemeOf, IsWellFormed};
ghost use Rattle.machine_step.specs.Tables.{Setup, Tables};
ghost use Rattle.repair_core.specs.Indexes.{has_index};

use crate::fields::{Fields, LineErr};
use crate::plans::repair_plan;
use crate::requests::words;
use machine_calls::{Call, Task};
use node_asks::conclude;
use repair_core::{RepairOutcome, RepairPlan};
use sat_base::{Indexes, Items, Moment, Scheme};
use std::alloc::Global;
use trial_indexes::{are_among, are_apart, are_rising, indexes_of};

// NOW WORDS, of which there are 128.
pub(crate) fn plan_repair(alloc: Global, fields: &mut Fields<'_>) -> Result<Call, LineErr>
    ensures { IfOk result (λ call. (t : Tables) → IsWellFormed t call) }
{
    let now = Moment::of(fields.number()?);
    let words = words(alloc, 128, fields)?;
    fields.end()?;
    Ok(Call::Own {
        now,
        task: Task::PlanRepair { words },
    })
}

// NOW WORDS, of which there are 128.
pub(crate) fn plan_exit(alloc: Global, fields: &mut Fields<'_>) -> Result<Call, LineErr>
    ensures { IfOk result (λ call. (t : Tables) → IsWellFormed t call) }
{
    let now = Moment::of(fields.number()?);
    let words = words(alloc, 128, fields)?;
    fields.end()?;
    Ok(Call::Own {
        now,
        task: Task::PlanExit { words },
    })
}

// What is told of a repair: the sources that answered in every window, that were altered and that hold no piece, and the
// targets that are kept.
#[derive(Drop)]
struct Tale {
    answered: Indexes,
    blamed: Indexes,
    missing: Indexes,
    placed: Indexes,
}

// ANSWERED BLAMED MISSING PLACED.
fn read_tale(alloc: Global, fields: &mut Fields<'_>) -> Result<Tale, LineErr> {
    Ok(Tale {
        answered: Items::of(fields.numbers(alloc)?),
        blamed: Items::of(fields.numbers(alloc)?),
        missing: Items::of(fields.numbers(alloc)?),
        placed: Items::of(fields.numbers(alloc)?),
    })
}

// Whether indexes rise and stand in others.
fn are_of(indexes: &[u8], others: &[u8], n: u8) -> bool
    ensures rising { IsTrue result → Rises indexes.now }
    ensures among { IsTrue result → All (λ index. has_index others.now index ≡ true) indexes.now }
{
    are_rising(indexes, n) && are_among(indexes, others)
}

// Whether a repair from these sources to these targets can have ended as it is told.
fn is_told(sources: &[u8], targets: &[u8], n: u8, tale: &Tale) -> bool
    ensures sources { IsTrue result → Rises sources.now }
    ensures blamed_rise { IsTrue result → Rises tale.now.blamed }
    ensures answered_rise { IsTrue result → Rises tale.now.answered }
    ensures placed_rise { IsTrue result → Rises tale.now.placed }
    ensures missing_rise { IsTrue result → Rises tale.now.missing }
    ensures blamed { IsTrue result → All (λ index. has_index sources.now index ≡ true) tale.now.blamed }
    ensures answered { IsTrue result → All (λ index. has_index sources.now index ≡ true) tale.now.answered }
    ensures placed { IsTrue result → All (λ index. has_index targets.now index ≡ true) tale.now.placed }
    ensures missing { IsTrue result → All (λ index. has_index sources.now index ≡ true) tale.now.missing }
    ensures silent { IsTrue result → All (λ index. has_index tale.now.missing index ≡ false) tale.now.answered }
    ensures apart { IsTrue result → All (λ index. has_index tale.now.missing index ≡ false) tale.now.blamed }
{
    let blamed = tale.blamed.as_slice();
    let answered = tale.answered.as_slice();
    let missing = tale.missing.as_slice();
    are_rising(sources, n)
        && are_of(blamed, sources, n)
        && are_of(answered, sources, n)
        && are_of(tale.placed.as_slice(), targets, n)
        && are_of(missing, sources, n)
        && are_apart(answered, missing)
        && are_apart(blamed, missing)
}

// How a repair ended, by what is told of it.
fn outcome(
    alloc: Global,
    scheme: &Scheme,
    plan: RepairPlan,
    tale: Tale,
) -> Result<RepairOutcome, LineErr>
    ensures { IfOk result (λ outcome. (setup : Setup) → IsSchemeOf setup scheme.now → IsMendedBy setup outcome) }
{
    let sources = indexes_of(alloc, plan.sources.as_slice())?;
    let targets = indexes_of(alloc, plan.targets.as_slice())?;
    if !is_told(sources.as_slice(), targets.as_slice(), scheme.n, &tale) {
        return Err(LineErr::Bad);
    }
    let Tale {
        answered,
        blamed,
        missing,
        placed,
    } = tale;
    Ok(conclude(alloc, scheme, plan, &blamed, &answered, placed, missing)?)
}

// The plan, and what is told of it.
fn ended(alloc: Global, scheme: &Scheme, fields: &mut Fields<'_>) -> Result<RepairOutcome, LineErr>
    ensures { IfOk result (λ outcome. (setup : Setup) → IsSchemeOf setup scheme.now → IsMendedBy setup outcome) }
{
    let plan = repair_plan(alloc, fields)?;
    let tale = read_tale(alloc, fields)?;
    outcome(alloc, scheme, plan, tale)
}

// NOW, the plan, and the lists of sources that answered, were altered and hold no piece, and of targets that are kept.
pub(crate) fn end_repair(
    alloc: Global,
    scheme: &Scheme,
    fields: &mut Fields<'_>,
) -> Result<Call, LineErr>
    ensures { IfOk result (λ call. (t : Tables) → IsSchemeOf t.setup scheme.now → IsWellFormed t call) }
{
    let now = Moment::of(fields.number()?);
    let outcome = ended(alloc, scheme, fields)?;
    fields.end()?;
    Ok(Call::Own {
        now,
        task: Task::EndRepair { outcome },
    })
}

// The same, of an exit's repair.
pub(crate) fn end_exit(
    alloc: Global,
    scheme: &Scheme,
    fields: &mut Fields<'_>,
) -> Result<Call, LineErr>
    ensures { IfOk result (λ call. (t : Tables) → IsSchemeOf t.setup scheme.now → IsWellFormed t call) }
{
    let now = Moment::of(fields.number()?);
    let outcome = ended(alloc, scheme, fields)?;
    fields.end()?;
    Ok(Call::Own {
        now,
        task: Task::EndExit { outcome },
    })
}

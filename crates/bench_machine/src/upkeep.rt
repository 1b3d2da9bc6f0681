// Calls of the satellite's own work, each timed by itself.
use crate::calls::{Answer, random_words, timed};
use crate::dropping::Asked;
use crate::made::now;
use anyhow::{Result, bail};
use audit_core::{Checked, RecheckPlan};
use machine_calls::{Call, Reply, Task, Wish};
use sat_base::{Items, NodeId};
use std::alloc::Global;
use std::time::{Clock, Instant};

/// A node tells other free bytes at each call.
pub(crate) fn set_free(
    clock: &impl Clock,
    alloc: Global,
    book: &mut Asked,
    node: NodeId,
    free: u64,
) -> Result<Answer> {
    let wish = Wish::SetFree { node, free };
    timed(clock, book, Call::of_wish(alloc, now(), wish))
}

pub(crate) fn plan_audit(
    clock: &impl Clock,
    alloc: Global,
    book: &mut Asked,
    seed: u64,
) -> Result<Answer> {
    let words = Vec::from_slice(alloc, &[seed, seed])?;
    let words = Items::of(words);
    timed(
        clock,
        book,
        Call::Own {
            now: now(),
            task: Task::PlanAudit { words },
        },
    )
}

pub(crate) fn plan_repair(
    clock: &impl Clock,
    alloc: Global,
    book: &mut Asked,
    seed: u64,
) -> Result<Answer> {
    let words = Vec::from_slice(alloc, &random_words(seed))?;
    let words = Items::of(words);
    timed(
        clock,
        book,
        Call::Own {
            now: now(),
            task: Task::PlanRepair { words },
        },
    )
}

pub(crate) fn plan_exit(
    clock: &impl Clock,
    alloc: Global,
    book: &mut Asked,
    seed: u64,
) -> Result<Answer> {
    let words = Vec::from_slice(alloc, &random_words(seed))?;
    let words = Items::of(words);
    timed(
        clock,
        book,
        Call::Own {
            now: now(),
            task: Task::PlanExit { words },
        },
    )
}

fn recheck_plan(book: &mut Asked) -> Result<RecheckPlan> {
    let Some(reply) = book.ask(Call::Own {
        now: now(),
        task: Task::PlanRecheck,
    }) else {
        bail!("the term is full");
    };
    match reply {
        Reply::RecheckPlanned { plan, .. } => Ok(plan),
        _ => bail!("no recheck is planned"),
    }
}

/// A recheck is planned, and ended by what came of it.
pub(crate) fn recheck(clock: &impl Clock, book: &mut Asked, checked: Checked) -> Result<Answer> {
    let start = Instant::now(clock)?;
    let plan = recheck_plan(book)?;
    let planned = start.elapsed(clock)?.as_nanos();
    let call = Call::Own {
        now: now(),
        task: Task::EndRecheck { plan, checked },
    };
    let ended = timed(clock, book, call)?;
    Ok(Answer {
        spent: planned.saturating_add(ended.spent),
        ..ended
    })
}

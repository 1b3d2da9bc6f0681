// A customer has stored pieces of its pending segment.
ghost use Rattle.std.specs.Prelude.{◌≡◌, Some, IfOk};
ghost use Rattle.machine_step.specs.Bounds.{IsValid};
ghost use Rattle.machine_step.specs.Tables.{owned_at};
ghost use Rattle.machine_step.specs.Calls.Commit.{committed, commit_pending, commit};
ghost use Rattle.machine_store.specs.Prepared.{Holds};
ghost use Rattle.machine_store.specs.Store.{tables_of};

use crate::answers::customer_answer;
use machine_calls::{Asking, RecChange, Refusal};
use machine_store::{Prepared, Store, done_with, refused};
use sat_base::{Asked, Done, Indexes, NoMemory, SegId};
use segment_core::{CommitErr, Segment, commit as commit_segment};
use std::alloc::Global;

// The segment is put in its place, and is live.
fn committed(
    alloc: Global,
    store: &Store,
    asking: &Asking,
    segment: SegId,
    live: Segment,
    indexes: &Indexes,
) -> Result<Prepared, NoMemory>
    ensures { IfOk result (λ p. Holds p (committed (tables_of store.now) asking.now segment live indexes.now)) }
{
    let asked = Asked::Commit {
        segment,
        indexes: indexes.copy(alloc)?,
    };
    let put = Some(RecChange::Segment(live));
    let done = Done::Committed { segment };
    done_with(alloc, store.marks_at(asking.time), put, asking, asked, done)
}

// The pending segment is live, with the pieces of these indexes, unless they are refused.
fn commit_pending(
    alloc: Global,
    store: &Store,
    asking: &Asking,
    segment: SegId,
    found: &Segment,
    indexes: &Indexes,
) -> Result<Prepared, NoMemory>
    requires valid { IsValid (tables_of store.now) }
    requires found { owned_at (tables_of store.now).segments asking.now.caller segment ≡ Some found.now }
    requires pending { found.now.version ≡ 0 }
    ensures { IfOk result (λ p. Holds p (commit_pending (tables_of store.now) asking.now segment found.now indexes.now)) }
{
    match commit_segment(alloc, found, &store.settings.scheme, indexes.as_slice()) {
        Ok(live) => committed(alloc, store, asking, segment, live, indexes),
        Err(CommitErr::NotOffered { index }) => Ok(refused(alloc, Refusal::NotOffered { index })),
        Err(CommitErr::Repeated { index }) => Ok(refused(alloc, Refusal::Repeated { index })),
        Err(CommitErr::TooFew { have, need }) => Ok(refused(alloc, Refusal::TooFew { have, need })),
        Err(CommitErr::NoMemory) => Err(NoMemory),
    }
}

pub(crate) fn commit(
    alloc: Global,
    store: &Store,
    asking: &Asking,
    segment: SegId,
    indexes: &Indexes,
) -> Result<Prepared, NoMemory>
    requires { IsValid (tables_of store.now) }
    ensures { IfOk result (λ p. Holds p (commit (tables_of store.now) asking.now segment indexes.now)) }
{
    let asked = Asked::Commit {
        segment,
        indexes: indexes.copy(alloc)?,
    };
    let answer = customer_answer(alloc, store, asking, &asked)?;
    if let Some(answer) = answer {
        return Ok(answer);
    }
    let Some(found) = store.owned(asking.caller, segment) else {
        return Ok(refused(alloc, Refusal::NoSegment { segment }));
    };
    if found.version != 0 {
        let version = found.version;
        return Ok(refused(alloc, Refusal::AlreadyLive { version }));
    }
    commit_pending(alloc, store, asking, segment, found, indexes)
}

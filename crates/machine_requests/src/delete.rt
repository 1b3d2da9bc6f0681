// A customer's segment is gone.
ghost use Rattle.std.specs.Prelude.{IfOk};
ghost use Rattle.machine_step.specs.Calls.Delete.{delete};
ghost use Rattle.machine_store.specs.Prepared.{Holds};
ghost use Rattle.machine_store.specs.Store.{tables_of};

use crate::answers::customer_answer;
use machine_calls::{Asking, RecChange, Refusal};
use machine_store::{Prepared, Store, done_with, refused};
use sat_base::{Asked, Done, Key, NoMemory, SegId};
use std::alloc::Global;

pub(crate) fn delete(
    alloc: Global,
    store: &Store,
    asking: &Asking,
    segment: SegId,
) -> Result<Prepared, NoMemory>
    ensures { IfOk result (λ p. Holds p (delete (tables_of store.now) asking.now segment)) }
{
    let asked = Asked::Delete { segment };
    let answer = customer_answer(alloc, store, asking, &asked)?;
    if let Some(answer) = answer {
        return Ok(answer);
    }
    if store.owned(asking.caller, segment).is_none() {
        return Ok(refused(alloc, Refusal::NoSegment { segment }));
    }
    let put = Some(RecChange::Remove(Key::Segment(segment)));
    let done = Done::Deleted { segment };
    done_with(alloc, store.marks_at(asking.time), put, asking, asked, done)
}

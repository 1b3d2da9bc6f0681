// The answers to numbered requests that come again, come too late, or come of nobody who is known.
ghost use Rattle.std.specs.Prelude.{IfOk};
ghost use Rattle.machine_step.specs.Outcome.{repeated, of_caller, of_customer};
ghost use Rattle.machine_store.specs.Prepared.{Holds, Answers};
ghost use Rattle.machine_store.specs.Store.{tables_of};

use machine_calls::{Asking, Refusal, Reply};
use machine_store::{Prepared, Store, refused, unchanged};
use sat_base::{Asked, Kept, NoMemory};
use std::alloc::Global;

// A request with the number of the kept one: a repeat of it, or another request.
fn repeated(alloc: Global, kept: &Kept, asked: &Asked) -> Result<Prepared, NoMemory>
    ensures { IfOk result (λ p. Holds p (repeated kept.now asked.now)) }
{
    if kept.asked.is_same(asked) {
        let done = kept.done.copy(alloc)?;
        return Ok(unchanged(alloc, Reply::Done(done)));
    }
    let kind = kept.asked.kind();
    Ok(refused(alloc, Refusal::RequestReused { kept: kind }))
}

// The answer to a numbered request that doesn't go on. None where it does.
pub(crate) fn caller_answer(
    alloc: Global,
    store: &Store,
    asking: &Asking,
    asked: &Asked,
) -> Result<Option<Prepared>, NoMemory>
    ensures { IfOk result (Answers (of_caller (tables_of store.now) asking.now asked.now)) }
{
    let Some(kept) = store.kept.get(u128::from(asking.caller.0)) else {
        return Ok(None);
    };
    if asking.number < kept.number {
        let last = kept.number;
        return Ok(Some(refused(alloc, Refusal::RequestOld { last })));
    }
    if asking.number > kept.number {
        return Ok(None);
    }
    Ok(Some(repeated(alloc, kept, asked)?))
}

// The same of a request that only a customer makes.
pub(crate) fn customer_answer(
    alloc: Global,
    store: &Store,
    asking: &Asking,
    asked: &Asked,
) -> Result<Option<Prepared>, NoMemory>
    ensures { IfOk result (Answers (of_customer (tables_of store.now) asking.now asked.now)) }
{
    if store.customers.get(u128::from(asking.caller.0)).is_none() {
        let customer = asking.caller;
        return Ok(Some(refused(alloc, Refusal::NoCustomer { customer })));
    }
    caller_answer(alloc, store, asking, asked)
}

// What a prepared step holds, and the common ends of steps.
ghost use Rattle.std.specs.Prelude.{◌≡◌, ◌∷◌, ◌++◌, [], IfOk, option_to_list};
ghost use Rattle.machine_calls.specs.declared.change.RecChange.TheVariants as changes;
ghost use Rattle.machine_calls.specs.declared.refusal.Refusal.TheVariants as refusals;
ghost use Rattle.machine_step.specs.Outcome.{unchanged, refused, accepted, done_with};
ghost use Rattle.machine_store.specs.Prepared.{Holds};

use machine_calls::{Asking, RecChange, Refusal, Reply, TableName};
use sat_base::{Asked, Done, Kept, Marks, NoMemory};
use std::alloc::Global;

/// The reply of a step, and the records that it changes, in order.
#[derive(Drop)]
pub struct Prepared {
    pub reply: Reply,
    pub changes: Vec<RecChange>,
}

// Nothing changes.
pub fn unchanged(alloc: Global, reply: Reply) -> Prepared
    ensures { Holds result (unchanged reply) }
{
    Prepared {
        reply,
        changes: Vec::new(alloc),
    }
}

// A call is refused.
pub fn refused(alloc: Global, cause: Refusal) -> Prepared
    ensures { Holds result (refused cause) }
{
    unchanged(alloc, Reply::Refused(cause))
}

// A table has no room for what the call would add.
pub fn table_full(alloc: Global, table: TableName) -> Prepared
    ensures { Holds result (refused (refusals.TableFull table)) }
{
    refused(alloc, Refusal::TableFull { table })
}

// The marks are put, and one record.
pub fn accepted(
    alloc: Global,
    marks: Marks,
    put: RecChange,
    reply: Reply,
) -> Result<Prepared, NoMemory>
    ensures { IfOk result (λ p. Holds p (accepted marks (put ∷ []) reply)) }
{
    let changes = Vec::from_array(alloc, [RecChange::Marks(marks), put])?;
    Ok(Prepared { reply, changes })
}

// The marks, and behind them these records.
fn with_marks(alloc: Global, marks: Marks, puts: Vec<RecChange>) -> Result<Vec<RecChange>, NoMemory>
    ensures { IfOk result (λ cs. cs.items ≡ changes.Marks marks ∷ puts.items) }
{
    let mut changes = Vec::new(alloc);
    changes.push(RecChange::Marks(marks))?;
    for put in puts {
        changes.push(put)?;
    }
    Ok(changes)
}

// The marks are put, and then all these records.
pub fn accepted_all(
    alloc: Global,
    marks: Marks,
    puts: Vec<RecChange>,
    reply: Reply,
) -> Result<Prepared, NoMemory>
    ensures { IfOk result (λ p. Holds p (accepted marks puts.items reply)) }
{
    let changes = with_marks(alloc, marks, puts)?;
    Ok(Prepared { reply, changes })
}

// The marks, what a numbered request puts, and the request as it is kept.
fn kept_with(
    alloc: Global,
    marks: Marks,
    put: Option<RecChange>,
    kept: Kept,
) -> Result<Vec<RecChange>, NoMemory>
    ensures { IfOk result (λ cs. cs.items ≡ changes.Marks marks ∷ (option_to_list put ++ changes.Kept kept ∷ [])) }
{
    let (first, last) = (RecChange::Marks(marks), RecChange::Kept(kept));
    match put {
        Some(put) => Ok(Vec::from_array(alloc, [first, put, last])?),
        None => Ok(Vec::from_array(alloc, [first, last])?),
    }
}

// A numbered request is accepted: the marks, what it puts, and the request as it is kept.
pub fn done_with(
    alloc: Global,
    marks: Marks,
    put: Option<RecChange>,
    asking: &Asking,
    asked: Asked,
    done: Done,
) -> Result<Prepared, NoMemory>
    ensures { IfOk result (λ p. Holds p (done_with marks (option_to_list put) asking.now asked done)) }
{
    let kept = Kept {
        done: done.copy(alloc)?,
        caller: asking.caller,
        number: asking.number,
        asked,
    };
    let changes = kept_with(alloc, marks, put, kept)?;
    Ok(Prepared {
        reply: Reply::Done(done),
        changes,
    })
}

// One call: its step prepared, written, and finished or forgotten.
ghost use Rattle.std.specs.Prelude.{◌≡◌, [], None};
ghost use Rattle.machine_step.specs.Bounds.{Each, IsValid};
ghost use Rattle.machine_step.specs.Step.{IsWellFormed, step};
ghost use Rattle.machine_step.specs.Writable.{IsWritable};
ghost use Rattle.machine_history.specs.Orders.{HasBytes};
ghost use Rattle.sat_book.specs.Ids.{AreIds};
ghost use Rattle.sat_book.specs.Kept.{AreWritten, Answers};

use crate::changes::row_changes;
use machine_calls::{Wish, are_bytes};
use sat_base::{Committed, Keeper};
use sat_machine::{Call, Core, Prepared, Reply};
use std::alloc::Global;

// What became of the rows that a step changes.
enum Written {
    // They are in the keeper, or there were none. The reply of the step, once more.
    Done(Reply),
    // The keeper's count of faults was the first, and is the second.
    Fault { before: u64, after: u64 },
    NoMemory,
}

// Copies the reply of a step, and writes the rows that it changes, if there are any.
fn write<K: Keeper>(alloc: Global, keeper: &mut K, prepared: &Prepared) -> Written
    requires { Each IsWritable prepared.now.changes.items }
    ensures written { AreWritten K.about prepared.now keeper.old keeper.new result }
    ensures quiet { prepared.now.changes.items ≡ [] → keeper.new ≡ keeper.old }
{
    let Ok(reply) = prepared.reply.copy(alloc) else {
        return Written::NoMemory;
    };
    if prepared.changes.is_empty() {
        return Written::Done(reply);
    }
    let Ok(rows) = row_changes(alloc, &prepared.changes) else {
        return Written::NoMemory;
    };
    let before = keeper.count();
    match keeper.commit(alloc, &rows) {
        Committed::Done => Written::Done(reply),
        Committed::Fault => Written::Fault {
            before,
            after: keeper.count(),
        },
        Committed::NoMemory => Written::NoMemory,
    }
}

// A reply, twice: for the history, and for whoever asked.
pub(crate) struct Answer {
    pub told: Reply,
    pub kept: Reply,
}

fn lost(before: u64, after: u64) -> Answer
    ensures told { result.told ≡ Reply.StoreFault before after }
    ensures kept { result.kept ≡ Reply.StoreFault before after }
{
    Answer {
        told: Reply::StoreFault { before, after },
        kept: Reply::StoreFault { before, after },
    }
}

fn no_memory() -> Answer
    ensures told { result.told ≡ Reply.NoMemory }
    ensures kept { result.kept ≡ Reply.NoMemory }
{
    Answer {
        told: Reply::NoMemory,
        kept: Reply::NoMemory,
    }
}

// Looks at the bytes of an order, which shows contracts that they are within their type.
fn read_bytes(call: &Call)
    ensures { HasBytes call.now }
{
    match call {
        Call::Asked { wish, .. } => match wish {
            Wish::Settle { bytes, .. } => are_bytes(bytes.as_slice()),
            _ => {}
        },
        Call::Own { .. } => {}
    }
}

// Takes the step of a call, once its rows are written. Where they can't be, the tables stay.
pub(crate) fn take_step<K: Keeper>(
    alloc: Global,
    keeper: &mut K,
    core: &mut Core,
    call: &Call,
) -> Answer
    requires free { core.old.pending ≡ None }
    requires formed { IsWellFormed core.old.tables call.now }
    requires ids { AreIds core.old.tables }
    ensures same { result.kept ≡ result.told }
    ensures pending { core.new.pending ≡ None }
    ensures bytes { HasBytes call.now }
    ensures answers { Answers K.about core.old.tables call.now result.told core.new.tables keeper.old keeper.new }
    ensures quiet { (step core.old.tables call.now).changes ≡ [] → keeper.new ≡ keeper.old }
{
    read_bytes(call);
    // the tables are valid
    let _marks = core.marks();
    let Ok(prepared) = core.prepare(call) else {
        return no_memory();
    };
    match write(alloc, keeper, &prepared) {
        Written::Done(kept) => Answer {
            told: core.finish(prepared),
            kept,
        },
        Written::Fault { before, after } => {
            core.forget(prepared);
            lost(before, after)
        }
        Written::NoMemory => {
            core.forget(prepared);
            no_memory()
        }
    }
}

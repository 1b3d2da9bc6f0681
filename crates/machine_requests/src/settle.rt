// A node presents an order.
ghost use Rattle.std.specs.Prelude.{IfOk};
ghost use Rattle.machine_step.specs.Calls.Settle.{not_settled, settle_as, settle};
ghost use Rattle.settlement.specs.Settle.{settlable};
ghost use Rattle.machine_store.specs.Prepared.{Holds};
ghost use Rattle.machine_store.specs.Store.{tables_of, GoesByTables};

use machine_calls::{RecChange, Refusal, Reply};
use machine_store::{Prepared, Store, accepted, refused, unchanged};
use sat_base::{Moment, NoMemory, NodeId};
use settlement::{Settlable, SettleErr};
use std::alloc::Global;

// An order that doesn't settle.
fn not_settled(alloc: Global, cause: SettleErr) -> Prepared
    ensures { Holds result (not_settled cause) }
{
    let refusal = match cause {
        SettleErr::Length { got } => Refusal::Length { got },
        SettleErr::Version { got } => Refusal::Version { got },
        SettleErr::Action { got } => Refusal::Action { got },
        SettleErr::LimitTag => Refusal::LimitTag,
        SettleErr::OrderTag => Refusal::OrderTag,
        SettleErr::OtherNode { limit_node } => Refusal::OtherNode { limit_node },
        SettleErr::Differs { kept } => Refusal::Differs { kept },
        SettleErr::Late { until } => Refusal::Late { until },
        SettleErr::OverLimit { limit } => Refusal::OverLimit { limit },
        SettleErr::SettledFull { cap } => Refusal::SettledFull { cap },
        SettleErr::NoMemory => return unchanged(alloc, Reply::NoMemory),
    };
    refused(alloc, refusal)
}

// What an order would settle as.
fn settle_as(
    alloc: Global,
    store: &Store,
    time: Moment,
    settles: Result<Settlable, SettleErr>,
) -> Result<Prepared, NoMemory>
    ensures { IfOk result (λ p. Holds p (settle_as (tables_of store.now) time settles)) }
{
    match settles {
        Ok(Settlable::New(row)) => {
            let reply = Reply::Settled { amount: row.amount };
            accepted(
                alloc,
                store.marks_at(time),
                RecChange::SettledRow(row),
                reply,
            )
        }
        Ok(Settlable::Again { amount }) => Ok(unchanged(alloc, Reply::Again { amount })),
        Err(cause) => Ok(not_settled(alloc, cause)),
    }
}

pub(crate) fn settle(
    alloc: Global,
    store: &Store,
    time: Moment,
    node: NodeId,
    bytes: &[u8],
) -> Result<Prepared, NoMemory>
    requires { GoesByTables store.now }
    ensures { IfOk result (λ p. Holds p (settle (tables_of store.now) time node bytes.now)) }
{
    if store.nodes.get(node).is_none() {
        return Ok(refused(alloc, Refusal::NoNode { node }));
    }
    let settles = store.settled.check(&store.keys, node, time, bytes);
    settle_as(alloc, store, time, settles)
}

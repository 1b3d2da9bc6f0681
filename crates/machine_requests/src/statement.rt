// A node asks what it is paid for a month.
ghost use Rattle.machine_step.specs.Calls.Statement.{statement};
ghost use Rattle.machine_store.specs.Prepared.{Holds};
ghost use Rattle.machine_store.specs.Store.{tables_of};

use machine_calls::{Refusal, Reply};
use machine_store::{Prepared, Store, refused, unchanged};
use month_sums::place_of;
use sat_base::{Month, NodeId};
use std::alloc::Global;

pub(crate) fn statement(alloc: Global, store: &Store, node: NodeId, month: Month) -> Prepared
    ensures { Holds result (statement (tables_of store.now) node month) }
{
    if store.nodes.get(node).is_none() {
        return refused(alloc, Refusal::NoNode { node });
    }
    let next = store.marks.month;
    if next.0 <= month.0 {
        return refused(alloc, Refusal::MonthOrder { next });
    }
    match store.pay.statements.get(u128::from(place_of(month, node))) {
        Some(statement) => unchanged(alloc, Reply::Statement(*statement)),
        None => refused(alloc, Refusal::NoStatement { month }),
    }
}

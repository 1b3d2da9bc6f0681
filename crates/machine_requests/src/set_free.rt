// A node says how many bytes are free.
ghost use Rattle.std.specs.Prelude.{IfOk};
ghost use Rattle.machine_step.specs.Calls.SetFree.{set_free};
ghost use Rattle.machine_store.specs.Prepared.{Holds};
ghost use Rattle.machine_store.specs.Store.{tables_of};

use machine_calls::{RecChange, Refusal, Reply};
use machine_store::{Prepared, Store, accepted, refused, unchanged};
use node_registry::Node;
use sat_base::{Moment, NoMemory, NodeId};
use std::alloc::Global;

pub(crate) fn set_free(
    alloc: Global,
    store: &Store,
    time: Moment,
    node: NodeId,
    free: u64,
) -> Result<Prepared, NoMemory>
    ensures { IfOk result (λ p. Holds p (set_free (tables_of store.now) time node free)) }
{
    let Some(found) = store.nodes.get(node) else {
        return Ok(refused(alloc, Refusal::NoNode { node }));
    };
    if found.free == free {
        return Ok(unchanged(alloc, Reply::FreeSet));
    }
    let put = RecChange::Node(Node { free, ..*found });
    accepted(alloc, store.marks_at(time), put, Reply::FreeSet)
}

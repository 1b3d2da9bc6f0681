// A node says that it leaves.
ghost use Rattle.std.specs.Prelude.{IfOk};
ghost use Rattle.machine_step.specs.Calls.Exit.{exit};
ghost use Rattle.machine_store.specs.Prepared.{Holds};
ghost use Rattle.machine_store.specs.Store.{tables_of};

use machine_calls::{RecChange, Refusal, Reply};
use machine_store::{Prepared, Store, accepted, refused, unchanged};
use node_registry::{Node, Status};
use sat_base::{Moment, NoMemory, NodeId};
use std::alloc::Global;

pub(crate) fn exit(
    alloc: Global,
    store: &Store,
    time: Moment,
    node: NodeId,
) -> Result<Prepared, NoMemory>
    ensures { IfOk result (λ p. Holds p (exit (tables_of store.now) time node)) }
{
    let Some(found) = store.nodes.get(node) else {
        return Ok(refused(alloc, Refusal::NoNode { node }));
    };
    match found.status {
        Status::Active => {
            let status = Status::Exiting;
            let put = RecChange::Node(Node { status, ..*found });
            accepted(
                alloc,
                store.marks_at(time),
                put,
                Reply::Exiting { node: found.id },
            )
        }
        Status::Exiting => Ok(unchanged(alloc, Reply::Exiting { node: found.id })),
        Status::Disqualified | Status::Exited => {
            let status = found.status.byte();
            Ok(refused(alloc, Refusal::NotServing { status }))
        }
    }
}

// The common ends of open plans.
ghost use Rattle.std.specs.Prelude.{◌≡◌, ◌∷◌, ◌++◌, [], false, map, IfOk};
ghost use Rattle.sat_base.specs.declared.records.Key.TheVariants as keys;
ghost use Rattle.machine_calls.specs.declared.change.RecChange.{RecChange};
ghost use Rattle.node_registry.specs.Registry.{node_at};
ghost use Rattle.machine_step.specs.Health.{after_outcome};
ghost use Rattle.machine_step.specs.Plans.{timed, drawn, has_no_plan, version_of, superseded};
ghost use Rattle.machine_step.specs.Tables.{segment_at};
ghost use Rattle.machine_store.specs.Prepared.{Holds};
ghost use Rattle.machine_upkeep.specs.Rated.{AllRated};
ghost use Rattle.machine_store.specs.Store.{tables_of};

use machine_calls::{RecChange, Reply};
use machine_store::{Prepared, Store};
use node_registry::{Node, NodeTable, Outcome, after};
use sat_base::{Key, Marks, Moment, NoMemory, NodeId, SegId, limits};
use std::alloc::Global;

// The node after an outcome, if it serves.
pub(crate) fn after_outcome(nodes: &NodeTable, id: NodeId, mark: Outcome) -> Option<Node>
    requires { AllRated nodes.now.nodes }
    ensures { result ≡ after_outcome (node_at nodes.now.nodes id) mark }
{
    let Some(node) = nodes.get(id) else {
        return None;
    };
    if !node.serves() {
        return None;
    }
    Some(after(node, mark))
}

// The version of a segment, and 0 where it is gone.
pub(crate) fn version_of(store: &Store, id: SegId) -> u64
    ensures { result ≡ version_of (segment_at (tables_of store.now).segments id.0) }
{
    match store.segments.get(id) {
        Some(segment) => segment.version,
        None => 0,
    }
}

// The marks at a moment, and that the plan of a kind is closed.
pub(crate) fn closing(
    alloc: Global,
    store: &Store,
    time: Moment,
    kind: u8,
) -> Result<Vec<RecChange>, NoMemory>
    ensures { IfOk result (λ changes. changes.items ≡ RecChange.Marks (timed store.now.marks time)
        ∷ RecChange.Remove (keys.Plan kind) ∷ []) }
{
    let mut changes = Vec::new(alloc);
    changes.push(RecChange::Marks(store.marks_at(time)))?;
    changes.push(RecChange::Remove(Key::Plan { kind }))?;
    Ok(changes)
}

// The plan is closed, and nothing else changes.
pub(crate) fn superseded(
    alloc: Global,
    store: &Store,
    time: Moment,
    kind: u8,
    planned: u64,
    now: u64,
) -> Result<Prepared, NoMemory>
    ensures { IfOk result (λ p. Holds p (superseded (tables_of store.now) time kind planned now)) }
{
    Ok(Prepared {
        reply: Reply::Superseded { planned, now },
        changes: closing(alloc, store, time, kind)?,
    })
}

// Whether the next number of a plan, or the next serial, is the last.
pub(crate) fn has_no_plan(marks: &Marks) -> bool
    ensures { result ≡ has_no_plan marks.now }
{
    marks.plan >= limits::LAST_NUMBER || marks.serial >= limits::LAST_NUMBER
}

// The marks where a plan and a serial are drawn.
pub(crate) fn drawn(store: &Store, time: Moment) -> Marks
    requires { has_no_plan store.now.marks ≡ false }
    ensures { result ≡ drawn store.now.marks time }
{
    Marks {
        plan: store.marks.plan + 1,
        serial: store.marks.serial + 1,
        ..store.marks_at(time)
    }
}

// Changes, and behind them those of nodes.
pub(crate) fn and_nodes(changes: Vec<RecChange>, nodes: &[Node]) -> Result<Vec<RecChange>, NoMemory>
    ensures { IfOk result (λ all. all.items ≡ changes.items ++ map RecChange.Node nodes.now) }
{
    let mut changes = changes;
    for node in nodes {
        changes.push(RecChange::Node(*node))?;
    }
    Ok(changes)
}

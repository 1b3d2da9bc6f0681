// The nodes that have left.
ghost use Rattle.std.specs.Prelude.{◌≡◌};
ghost use Rattle.machine_step.specs.PlanRules.{is_exited, is_sound_left, is_accounted, bad_lefts, missing_lefts};
ghost use Rattle.machine_step.specs.Rules.{least};

use crate::tariffs::least_with;
use node_registry::{Left, Node, NodeTable, Status};
use rows::SlottedRows;
use sat_base::Marks;

fn is_exited(status: Status) -> bool
    ensures { result ≡ is_exited status }
{
    matches!(status, Status::Exited)
}

// Whether a row is of a node that has exited, and not of a later moment.
fn is_sound_left(marks: &Marks, nodes: &NodeTable, left: &Left) -> bool
    ensures { result ≡ is_sound_left marks.now nodes.now.nodes left.now }
{
    match nodes.get(left.node) {
        Some(node) => is_exited(node.status) && left.at.seconds() <= marks.time.seconds(),
        None => false,
    }
}

// Whether a node that has exited has its row.
fn is_accounted(left: &SlottedRows<Left>, node: &Node) -> bool
    ensures { result ≡ is_accounted left.now.rows node.now }
{
    !is_exited(node.status) || left.get(u128::from(node.id.0)).is_some()
}

/// The least node whose row breaks the rule of the nodes that have left: it has exited, no later than the greatest
/// moment.
pub fn bad_left(marks: &Marks, nodes: &NodeTable, rows: &[Left]) -> Option<u32>
    ensures { result ≡ least (bad_lefts marks.now nodes.now.nodes rows.now) }
{
    let mut worst = None;
    let mut i = rows.len();
    while i > 0 {
        i -= 1;
        if !is_sound_left(marks, nodes, &rows[i]) {
            worst = Some(least_with(rows[i].node.0, worst));
        }
    }
    worst
}

/// The least node that has exited and has no row.
pub fn missing_left(nodes: &[Node], left: &SlottedRows<Left>) -> Option<u32>
    ensures { result ≡ least (missing_lefts left.now.rows nodes.now) }
{
    let mut worst = None;
    let mut i = nodes.len();
    while i > 0 {
        i -= 1;
        if !is_accounted(left, &nodes[i]) {
            worst = Some(least_with(nodes[i].id.0, worst));
        }
    }
    worst
}

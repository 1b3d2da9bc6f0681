// What an audit says of the nodes of its pieces.
ghost use Rattle.std.specs.Prelude.{◌≡◌, ◌==◌, filter_map, find, map, is_none, IfOk};
ghost use Rattle.segment_core.specs.Commit.{is_among};
ghost use Rattle.machine_step.specs.Calls.EndAudit.{answered_in, blamed_of, mark_of, node_after, owed, is_free, containment_after, containments_after};
ghost use Rattle.machine_upkeep.specs.Rated.{AllRated};
ghost use Rattle.machine_store.specs.Store.{tables_of};

use crate::closing::after_outcome;
use audit_core::{Judged, Silent, Verdict};
use machine_store::Store;
use node_registry::{Node, NodeTable, Outcome};
use sat_base::{At, Containment, Indexes, Items, NoMemory, Share};
use std::alloc::Global;

// Whether an answer of this index came.
fn is_answered(answers: &[Share], index: u8) -> bool
    ensures { result ≡ is_among (answered_in answers.now) index }
{
    for answer in answers {
        if answer.index == index {
            return true;
        }
    }
    false
}

// What the audit says of the node of an asked index.
fn mark_of(judged: &Judged, index: u8) -> Option<Outcome>
    ensures { result ≡ mark_of judged.now index }
{
    if judged.missing.as_slice().contains(&index) {
        return Some(Outcome::Fail);
    }
    match &judged.verdict {
        Verdict::Clear { blamed } => {
            if blamed.as_slice().contains(&index) {
                return Some(Outcome::Fail);
            }
            if is_answered(judged.answers.as_slice(), index) {
                return Some(Outcome::Pass);
            }
            None
        }
        Verdict::Unclear => None,
    }
}

// The node of an asked piece after the audit, where it serves and gets an outcome.
fn node_after(nodes: &NodeTable, judged: &Judged, piece: At) -> Option<Node>
    requires { AllRated nodes.now.nodes }
    ensures { result ≡ node_after nodes.now.nodes judged.now piece }
{
    match mark_of(judged, piece.index) {
        Some(mark) => after_outcome(nodes, piece.node, mark),
        None => None,
    }
}

// The nodes that the audit changes.
pub(crate) fn nodes_after(
    alloc: Global,
    nodes: &NodeTable,
    judged: &Judged,
) -> Result<Vec<Node>, NoMemory>
    requires { AllRated nodes.now.nodes }
    ensures { IfOk result (λ changed. changed.items ≡ filter_map (node_after nodes.now.nodes judged.now) judged.now.plan.asked) }
{
    Ok(
        judged
            .plan
            .asked
            .as_slice()
            .iter()
            .copied()
            .filter_map(|piece| node_after(nodes, judged, piece))
            .collect(alloc)?,
    )
}

// The silent node of an index.
fn silent_at(silent: &[Silent], index: u8) -> Option<Silent>
    ensures { result ≡ find (λ one. one.index == index) silent.now }
{
    silent.iter().copied().find(|one| one.index == index)
}

// What a silent node owes, under a clear verdict.
fn owed(judged: &Judged, index: u8) -> Option<Silent>
    ensures { result ≡ owed judged.now index }
{
    match judged.verdict {
        Verdict::Clear { .. } => silent_at(judged.silent.as_slice(), index),
        Verdict::Unclear => None,
    }
}

// Whether a node serves and isn't contained yet.
fn is_free(store: &Store, piece: At) -> bool
    ensures { result ≡ is_free (tables_of store.now) piece }
{
    match store.nodes.get(piece.node) {
        Some(node) => {
            node.serves() && store.containments.get(u128::from(piece.node.0)).is_none()
        }
        None => false,
    }
}

// The containment of a silent node.
fn containment_after(store: &Store, judged: &Judged, piece: At) -> Option<Containment>
    ensures { result ≡ containment_after (tables_of store.now) judged.now piece }
{
    if !is_free(store, piece) {
        return None;
    }
    let Some(silent) = owed(judged, piece.index) else {
        return None;
    };
    let expect = silent.expect;
    Some(Containment {
        node: piece.node,
        segment: judged.plan.segment,
        index: piece.index,
        stripe: judged.plan.stripe,
        expect,
        tries: 0,
    })
}

// The nodes that are contained from then on.
pub(crate) fn containments_after(
    alloc: Global,
    store: &Store,
    judged: &Judged,
) -> Result<Vec<Containment>, NoMemory>
    ensures { IfOk result (λ contained. contained.items ≡ containments_after (tables_of store.now) judged.now) }
{
    Ok(
        judged
            .plan
            .asked
            .as_slice()
            .iter()
            .copied()
            .filter_map(|piece| containment_after(store, judged, piece))
            .collect(alloc)?,
    )
}

// The indexes of containments.
pub(crate) fn indexes_of(alloc: Global, contained: &[Containment]) -> Result<Indexes, NoMemory>
    ensures { IfOk result (λ indexes. indexes ≡ map (λ containment. containment.index) contained.now) }
{
    let indexes = contained
        .iter()
        .copied()
        .map(|containment| containment.index)
        .collect(alloc)?;
    Ok(Items::of(indexes))
}

// The blamed indexes again.
pub(crate) fn blamed_of(alloc: Global, verdict: &Verdict) -> Result<Indexes, NoMemory>
    ensures { IfOk result (λ blamed. blamed ≡ blamed_of verdict.now) }
{
    match verdict {
        Verdict::Clear { blamed } => blamed.copy(alloc),
        Verdict::Unclear => Ok(Items::of(Vec::new(alloc))),
    }
}

// The containments that a step leaves without a node that serves or without their piece.
ghost use Rattle.std.specs.Prelude.{◌≡◌, IfOk, OnOk, option_copied};
ghost use Rattle.std.specs.List.{list_any};
ghost use Rattle.node_registry.specs.Registry.{node_at};
ghost use Rattle.machine_step.specs.Bounds.{IsValid};
ghost use Rattle.machine_step.specs.Containment.{has_piece, stands, fallen, release, swept};
ghost use Rattle.machine_step.specs.Outcome.{Outcome};
ghost use Rattle.machine_step.specs.Tables.{segment_at, all_changed};
ghost use Rattle.machine_store.specs.Prepared.{Holds};
ghost use Rattle.machine_store.specs.Store.{tables_of};
ghost use Rattle.sat_machine.specs.Sweep.{lives, unsettles, node_by, segment_by, containments_by};

use machine_calls::RecChange;
use machine_store::{Prepared, Store};
use node_registry::Node;
use rows::{Ranked, SlottedRows};
use sat_base::{At, Containment, Key, NoMemory, NodeId, SegId};
use segment_core::Segment;
use std::alloc::Global;

// Whether a live segment has the id.
fn lives(store: &Store, id: SegId) -> bool
    ensures { result ≡ lives (tables_of store.now).segments id }
{
    match store.segments.get(id) {
        Some(segment) => segment.version != 0,
        None => false,
    }
}

// Whether a change may leave a containment without a node that serves or without its piece.
fn unsettles(store: &Store, change: &RecChange) -> bool
    ensures { result ≡ unsettles (tables_of store.now).segments change.now }
{
    match change {
        RecChange::Node(node) => !node.serves(),
        RecChange::Segment(segment) => lives(store, segment.id),
        RecChange::Containment(_) => true,
        RecChange::Remove(Key::Segment(id)) => lives(store, *id),
        _ => false,
    }
}

fn any_unsettles(store: &Store, changes: &[RecChange]) -> bool
    ensures { result ≡ list_any (unsettles (tables_of store.now).segments) changes.now }
{
    changes.iter().any(|change| unsettles(store, change))
}

// The node of an id after a change.
fn node_by<'a>(change: &'a RecChange, id: NodeId, before: Option<&'a Node>) -> Option<&'a Node>
    ensures { option_copied result ≡ node_by change.now id (option_copied before.entry) }
{
    match change {
        RecChange::Node(node) if node.id.0 == id.0 => Some(node),
        _ => before,
    }
}

// The node of an id after changes.
fn node_after<'a>(store: &'a Store, changes: &'a [RecChange], id: NodeId) -> Option<&'a Node>
    ensures { option_copied result ≡ node_at (all_changed (tables_of store.now) changes.now).nodes id }
{
    let mut found = store.nodes.get(id);
    for change in changes {
        found = node_by(change, id, found);
    }
    found
}

// The segment of an id after a change.
fn segment_by<'a>(
    change: &'a RecChange,
    id: SegId,
    before: Option<&'a Segment>,
) -> Option<&'a Segment>
    ensures { option_copied result ≡ segment_by change.now id.0 (option_copied before.entry) }
{
    match change {
        RecChange::Segment(segment) if segment.id.0 == id.0 => Some(segment),
        RecChange::Remove(Key::Segment(gone)) if gone.0 == id.0 => None,
        _ => before,
    }
}

// The segment of an id after changes.
fn segment_after<'a>(store: &'a Store, changes: &'a [RecChange], id: SegId) -> Option<&'a Segment>
    ensures { option_copied result ≡ segment_at (all_changed (tables_of store.now) changes.now).segments id.0 }
{
    let mut found = store.segments.get(id);
    for change in changes {
        found = segment_by(change, id, found);
    }
    found
}

// Whether a place is one of the pieces.
fn has_piece(pieces: &[At], place: At) -> bool
    ensures { result ≡ has_piece pieces.now place }
{
    pieces.iter().any(|piece| piece.index == place.index && piece.node.0 == place.node.0)
}

// Whether a containment stands after changes.
fn stands_after(store: &Store, changes: &[RecChange], row: &Containment) -> bool
    ensures { result ≡ stands (all_changed (tables_of store.now) changes.now) row.now }
{
    let place = At {
        index: row.index,
        node: row.node,
    };
    match (
        node_after(store, changes, row.node),
        segment_after(store, changes, row.segment),
    ) {
        (Some(node), Some(segment)) => {
            node.serves() && segment.version != 0 && has_piece(segment.pieces.as_slice(), place)
        }
        _ => false,
    }
}

// A change in a table of containments.
fn change_row(rows: &mut SlottedRows<Containment>, change: &RecChange) -> Result<(), NoMemory>
    ensures { OnOk result (rows.new.rows ≡ containments_by change.now rows.old.rows) }
{
    match change {
        RecChange::Containment(row) => {
            rows.place(row.rank())?;
            rows.put(*row);
        }
        RecChange::Remove(Key::Containment(node)) => rows.remove(u128::from(node.0)),
        _ => {}
    }
    Ok(())
}

// The containments after changes.
fn rows_after(
    alloc: Global,
    store: &Store,
    changes: &[RecChange],
) -> Result<Vec<Containment>, NoMemory>
    ensures { IfOk result (λ rows. rows.items ≡ (all_changed (tables_of store.now) changes.now).containments) }
{
    let mut rows = SlottedRows::of(alloc, store.containments.copied(alloc)?)?;
    for change in changes {
        change_row(&mut rows, change)?;
    }
    rows.copied(alloc)
}

// Those that don't stand.
fn fallen(alloc: Global, store: &Store, changes: &[RecChange]) -> Result<Vec<Containment>, NoMemory>
    ensures { IfOk result (λ rows. rows.items ≡ fallen (all_changed (tables_of store.now) changes.now)) }
{
    let rows = rows_after(alloc, store, changes)?;
    let gone = rows
        .iter()
        .copied()
        .filter(|row| !stands_after(store, changes, row))
        .collect(alloc)?;
    Ok(gone)
}

fn release(row: &Containment) -> RecChange
    ensures { result ≡ release row.now }
{
    RecChange::Remove(Key::Containment(row.node))
}

// A step, and behind its changes the removal of the containments that they leave without a node that serves or without their piece. Most steps change
// nothing that a containment stands on, and so pass over none of them.
pub(crate) fn sweep(alloc: Global, store: &Store, prepared: Prepared) -> Result<Prepared, NoMemory>
    requires { IsValid (tables_of store.now) }
    ensures { (o : Outcome) → Holds prepared o → IfOk result (λ p. Holds p (swept (tables_of store.now) o)) }
{
    if !any_unsettles(store, prepared.changes.as_slice()) {
        return Ok(prepared);
    }
    let gone = fallen(alloc, store, prepared.changes.as_slice())?;
    let mut prepared = prepared;
    for row in gone.as_slice() {
        prepared.changes.push(release(row))?;
    }
    Ok(prepared)
}

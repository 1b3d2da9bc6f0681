// Room for what a step changes, and the step itself.
ghost use Rattle.std.specs.Prelude.{◌≡◌, ◌≤◌, ◌+◌, [], true, length, OnOk};
ghost use Rattle.rows.specs.Rows.{Each};
ghost use Rattle.rows.specs.Slots.{with_row};
ghost use Rattle.node_registry.specs.Registry.{node_rank};
ghost use Rattle.settlement.specs.Rows.{key};
ghost use Rattle.machine_calls.specs.declared.change.RecChange.{RecChange};
ghost use Rattle.machine_step.specs.Outcome.{Outcome};
ghost use Rattle.machine_step.specs.Step.{is_stopping, tables_after};
ghost use Rattle.machine_step.specs.Tables.{removed, changed, all_changed};
ghost use Rattle.pay_tables.specs.Placed.{HasNoMore, KeepsRows};
ghost use Rattle.machine_store.specs.Freed.{IsTight, HasNoRoom, HasNoMoreRooms};
ghost use Rattle.machine_store.specs.Prepared.{Holds};
ghost use Rattle.machine_store.specs.Store.{tables_of, GoesByTables, IsNodePlaceable, IsRowPlaceable, IsPlaceable, ArePlaceable, IsNodePlaced, IsRowPlaced, IsPlaced, HasRoom, spares, are_orderly};
ghost use Rattle.node_registry.specs.declared.node.Node.{Node};
ghost use Rattle.settlement.specs.declared.row.SettledRow.{SettledRow};

use crate::paying::{
    place_segment, place_settled, place_statement, place_tally, put_segment, put_settled,
    put_statement, put_tally, release_paid, remove_segment,
};
use crate::prepared::Prepared;
use crate::store::Store;
use machine_calls::{RecChange, Reply};
use node_registry::{Node, NodeTable};
use rows::{Ranked, SlottedRows};
use sat_base::{Key, NoMemory};
use settlement::{Settled, SettledRow};

// Makes room for a node, if it is the next one.
fn place_node(nodes: &mut NodeTable, node: &Node) -> Result<(), NoMemory>
    requires { IsNodePlaceable nodes.old.nodes node.now }
    ensures nodes { nodes.new.nodes ≡ nodes.old.nodes }
    ensures placed { OnOk result (IsNodePlaced nodes.new node.now) }
    ensures keeps { (other : Node) → IsNodePlaced nodes.old other → IsNodePlaced nodes.new other }
{
    nodes.reserve(1)
}

// Makes room for a settled row.
pub(crate) fn place_row(settled: &mut Settled, row: &SettledRow) -> Result<(), NoMemory>
    requires { IsRowPlaceable settled.old.rows settled.old.cap row.now }
    ensures rows { settled.new.rows ≡ settled.old.rows }
    ensures cap { settled.new.cap ≡ settled.old.cap }
    ensures placed { OnOk result (IsRowPlaced settled.new row.now) }
    ensures keeps { OnOk result ((other : SettledRow) → IsRowPlaced settled.old other → IsRowPlaced settled.new other) }
{
    settled.reserve()
}

// Puts a node in its place.
fn put_node(nodes: &mut NodeTable, node: Node)
    requires { IsNodePlaced nodes.old node }
    ensures nodes { nodes.new.nodes ≡ with_row node_rank nodes.old.nodes node }
    ensures keeps { (other : Node) → IsNodePlaced nodes.old other → IsNodePlaced nodes.new other }
{
    let _nodes = nodes.nodes();
    if node.id.0 as usize <= nodes.len() {
        nodes.set(node);
    } else if nodes.add(node).is_err() {
        unreachable!()
    }
}

// Adds a settled row.
pub(crate) fn put_row(settled: &mut Settled, row: SettledRow)
    requires { IsRowPlaced settled.old row }
    ensures rows { settled.new.rows ≡ with_row key settled.old.rows row }
    ensures cap { settled.new.cap ≡ settled.old.cap }
{
    settled.add(row);
}

/// Counts the pieces at the nodes that stopped serving as lost. The tables stay as they are, and room that was made for
/// changes is void. It fails only where memory runs out, which leaves some of the nodes to be counted.
pub fn refresh(store: &mut Store) -> Result<(), NoMemory>
    requires { GoesByTables store.old }
    ensures tables { tables_of store.new ≡ tables_of store.old }
    ensures own { GoesByTables store.new }
    ensures fresh { OnOk result (store.new.segments.pending ≡ []) }
{
    store.segments.refresh()
}

// Makes room for the record that a change puts.
fn place(store: &mut Store, change: &RecChange) -> Result<(), NoMemory>
    requires placeable { IsPlaceable (tables_of store.old) change.now }
    requires own { GoesByTables store.old }
    ensures tables { tables_of store.new ≡ tables_of store.old }
    ensures own { GoesByTables store.new }
    ensures placed { OnOk result (IsPlaced store.new change.now) }
    ensures keeps { OnOk result ((c : RecChange) → IsPlaced store.old c → IsPlaced store.new c) }
    ensures losses { store.new.segments.room.lost ≡ store.old.segments.room.lost }
{
    match change {
        RecChange::Node(node) => place_node(&mut store.nodes, node),
        RecChange::Customer(customer) => store.customers.place(customer.rank()),
        RecChange::Segment(segment) => place_segment(store, segment),
        RecChange::SettledRow(row) => place_settled(store, row),
        RecChange::Tally(tally) => place_tally(store, tally),
        RecChange::Statement(statement) => place_statement(store, statement),
        RecChange::Containment(row) => store.containments.place(row.rank()),
        RecChange::Kept(kept) => store.kept.place(kept.rank()),
        RecChange::Left(left) => store.left.place(left.rank()),
        RecChange::Tariff(tariff) => store.tariffs.place(tariff.rank()),
        RecChange::Settings(_) => unreachable!(),
        _ => Ok(()),
    }
}

// Gives back the room for a row in one table, where there is no row of its rank.
fn release_row<R: Ranked>(table: &mut SlottedRows<R>, rank: u128)
    ensures rows { table.new.rows ≡ table.old.rows }
    ensures freed { IsTight R.rank table.new rank }
    ensures fewer { HasNoMore table.old table.new }
{
    table.release(rank);
}

// Gives back the room for a record, where there is no such record. Room for nodes, and for the rows of settled orders,
// has no rank, and serves the next one; no room is made for the others.
fn release(store: &mut Store, change: &RecChange)
    ensures tables { tables_of store.new ≡ tables_of store.old }
    ensures own { GoesByTables store.old → GoesByTables store.new }
    ensures index { store.new.segments ≡ record store.old.segments { room = store.new.segments.room } }
    ensures rows { KeepsRows store.old.pay store.new.pay }
    ensures freed { HasNoRoom store.new change.now }
    ensures fewer { HasNoMoreRooms store.old store.new }
{
    match change {
        RecChange::Customer(customer) => release_row(&mut store.customers, customer.rank()),
        RecChange::Containment(row) => release_row(&mut store.containments, row.rank()),
        RecChange::Kept(kept) => release_row(&mut store.kept, kept.rank()),
        RecChange::Left(left) => release_row(&mut store.left, left.rank()),
        RecChange::Tariff(tariff) => release_row(&mut store.tariffs, tariff.rank()),
        RecChange::Segment(_)
        | RecChange::SettledRow(_)
        | RecChange::Tally(_)
        | RecChange::Statement(_) => release_paid(store, change),
        _ => {}
    }
}

// Removes a record.
fn remove(store: &mut Store, key: Key)
    requires { GoesByTables store.old }
    ensures tables { tables_of store.new ≡ removed (tables_of store.old) key }
    ensures own { GoesByTables store.new }
    ensures keeps { (c : RecChange) → spares (RecChange.Remove key) c ≡ true → IsPlaced store.old c → IsPlaced store.new c }
    ensures losses { store.new.segments.room.lost ≡ store.old.segments.room.lost }
{
    match key {
        Key::Segment(id) => remove_segment(store, id),
        Key::Plan { kind } => store.plans.close(kind),
        Key::Containment(node) => store.containments.remove(u128::from(node.0)),
    }
}

// Puts a node, and notes whether its pieces count.
fn put_counted(store: &mut Store, node: Node)
    requires placed { IsPlaced store.old (RecChange.Node node) }
    requires losses { 1 ≤ store.old.segments.room.lost }
    ensures tables { tables_of store.new ≡ changed (tables_of store.old) (RecChange.Node node) }
    ensures own { GoesByTables store.old → GoesByTables store.new }
    ensures keeps { (c : RecChange) → IsPlaced store.old c → IsPlaced store.new c }
    ensures losses { store.old.segments.room.lost ≤ store.new.segments.room.lost + 1 }
{
    let id = node.id;
    let counts = node.counts();
    put_node(&mut store.nodes, node);
    if counts {
        store.segments.keep(id);
    } else {
        store.segments.lose(id);
    }
}

// Changes one record. It takes no memory.
fn change(store: &mut Store, change: RecChange)
    requires placed { IsPlaced store.old change }
    requires losses { 1 ≤ store.old.segments.room.lost }
    requires own { GoesByTables store.old }
    ensures tables { tables_of store.new ≡ changed (tables_of store.old) change }
    ensures own { GoesByTables store.new }
    ensures keeps { (c : RecChange) → spares change c ≡ true → IsPlaced store.old c → IsPlaced store.new c }
    ensures losses { store.old.segments.room.lost ≤ store.new.segments.room.lost + 1 }
{
    match change {
        RecChange::Marks(marks) => store.marks = marks,
        RecChange::Node(node) => put_counted(store, node),
        RecChange::Customer(customer) => store.customers.put(customer),
        RecChange::Segment(segment) => put_segment(store, segment),
        RecChange::SettledRow(row) => put_settled(store, row),
        RecChange::Tally(tally) => put_tally(store, tally),
        RecChange::Statement(statement) => put_statement(store, statement),
        RecChange::AuditPlan(plan) => store.plans.audit = Some(plan),
        RecChange::RecheckPlan(plan) => store.plans.recheck = Some(plan),
        RecChange::RepairPlan(plan) => store.plans.repair = Some(plan),
        RecChange::Containment(row) => store.containments.put(row),
        RecChange::Kept(kept) => store.kept.put(kept),
        RecChange::ExitPlan(plan) => store.plans.exit = Some(plan),
        RecChange::Left(left) => store.left.put(left),
        RecChange::Tariff(tariff) => store.tariffs.put(tariff),
        RecChange::Remove(key) => remove(store, key),
        RecChange::Settings(_) => unreachable!(),
    }
}

// Makes room for all the records that changes put, and for as many nodes that stop serving.
pub fn place_all(store: &mut Store, changes: &[RecChange]) -> Result<(), NoMemory>
    requires placeable { ArePlaceable (tables_of store.old) changes.now }
    requires own { GoesByTables store.old }
    ensures tables { tables_of store.new ≡ tables_of store.old }
    ensures own { GoesByTables store.new }
    ensures room { OnOk result (HasRoom store.new changes.now) }
{
    store.segments.place_loss(changes.len())?;
    for change in changes {
        place(store, change)?;
    }
    Ok(())
}

// Gives the room back that was made for changes: none stands for a record that isn't there.
pub fn release_all(store: &mut Store, changes: &[RecChange])
    ensures tables { tables_of store.new ≡ tables_of store.old }
    ensures own { GoesByTables store.old → GoesByTables store.new }
    ensures freed { Each (HasNoRoom store.new) changes.now }
{
    for change in changes {
        release(store, change);
    }
}

// Changes all the records, in order. It takes no memory.
fn change_all(store: &mut Store, changes: Vec<RecChange>)
    requires room { HasRoom store.old changes.items }
    requires orderly { are_orderly changes.items ≡ true }
    requires own { GoesByTables store.old }
    ensures tables { tables_of store.new ≡ all_changed (tables_of store.old) changes.items }
    ensures own { GoesByTables store.new }
{
    let mut rest = changes;
    rest.reverse();
    while let Some(first) = rest.pop() {
        change(store, first);
    }
}

fn is_stopping(reply: &Reply) -> bool
    ensures { result ≡ is_stopping reply.now }
{
    matches!(reply, Reply::Stopping)
}

// Takes a step that is prepared. It takes no memory.
pub fn take_step(store: &mut Store, prepared: Prepared) -> Reply
    requires room { HasRoom store.old prepared.changes.items }
    requires orderly { are_orderly prepared.changes.items ≡ true }
    requires own { GoesByTables store.old }
    ensures tables { (o : Outcome) → Holds prepared o → tables_of store.new ≡ tables_after (tables_of store.old) o }
    ensures own { GoesByTables store.new }
    ensures reply { result ≡ prepared.reply }
{
    let Prepared { reply, changes } = prepared;
    change_all(store, changes);
    store.stopped |= is_stopping(&reply);
    reply
}

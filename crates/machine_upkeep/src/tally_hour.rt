// The bytes that nodes store are counted for an hour.
ghost use Rattle.std.specs.Prelude.{◌≡◌, ◌+◌, ◌/◌, map, IfOk};
ghost use Rattle.machine_calls.specs.declared.change.RecChange.TheVariants as changes;
ghost use Rattle.machine_step.specs.Bounds.{IsValid};
ghost use Rattle.machine_step.specs.Calls.TallyHour.{tally_of, hour_rows, hour_tallied, tally_hour};
ghost use Rattle.machine_store.specs.Prepared.{Holds};
ghost use Rattle.machine_store.specs.Store.{tables_of, GoesByTables};

use machine_calls::{RecChange, Refusal, Reply, TableName};
use machine_store::{Prepared, Store, accepted_all, refused, stored_at, table_full};
use node_registry::Node;
use sat_base::{Hour, Marks, Moment, NoMemory};
use std::alloc::Global;
use tally_payout::Tally;

// What is counted of a node.
fn tally_of(store: &Store, hour: Hour, node: &Node) -> Tally
    requires valid { IsValid (tables_of store.now) }
    requires own { GoesByTables store.now }
    ensures { result ≡ tally_of (tables_of store.now) hour.0 node.now }
{
    Tally {
        hour,
        node: node.id,
        bytes: stored_at(store, node) as u64,
    }
}

// The rows of an hour: one of each node that stores something.
#[tactic(auto, unfolding(machine_step::specs::Calls::TallyHour::hour_rows))]
fn hour_rows(alloc: Global, store: &Store, hour: Hour) -> Result<Vec<Tally>, NoMemory>
    requires valid { IsValid (tables_of store.now) }
    requires own { GoesByTables store.now }
    ensures { IfOk result (λ rows. rows.items ≡ hour_rows (tables_of store.now) hour.0) }
{
    let mut rows = Vec::new(alloc);
    for node in store.nodes.nodes() {
        let tally = tally_of(store, hour, node);
        if tally.bytes != 0 {
            rows.push(tally)?;
        }
    }
    Ok(rows)
}

// A record that is put for each tally.
fn puts_of(alloc: Global, rows: Vec<Tally>) -> Result<Vec<RecChange>, NoMemory>
    ensures { IfOk result (λ puts. puts.items ≡ map changes.Tally rows.items) }
{
    let puts = rows
        .into_iter()
        .map(|row| RecChange::Tally(row))
        .collect(alloc)?;
    Ok(puts)
}

fn hour_tallied(
    alloc: Global,
    store: &Store,
    time: Moment,
    rows: Vec<Tally>,
) -> Result<Prepared, NoMemory>
    requires valid { IsValid (tables_of store.now) }
    requires rows { rows.items ≡ hour_rows (tables_of store.now) (time / 3600) }
    ensures { IfOk result (λ p. Holds p (hour_tallied (tables_of store.now) time)) }
{
    let hour = time.seconds() / 3600;
    let marks = Marks {
        time,
        hour: Hour(hour + 1),
        ..store.marks
    };
    let nodes = rows.len() as u32;
    let reply = Reply::Tallied {
        hour: Hour(hour),
        nodes,
    };
    accepted_all(alloc, marks, puts_of(alloc, rows)?, reply)
}

pub(crate) fn tally_hour(alloc: Global, store: &Store, time: Moment) -> Result<Prepared, NoMemory>
    requires valid { IsValid (tables_of store.now) }
    requires own { GoesByTables store.now }
    ensures { IfOk result (λ p. Holds p (tally_hour (tables_of store.now) time)) }
{
    let hour = Hour(time.seconds() / 3600);
    let next = store.marks.hour;
    if hour.0 < next.0 {
        return Ok(refused(alloc, Refusal::HourDone { next }));
    }
    let rows = hour_rows(alloc, store, hour)?;
    let room = u128::from(store.settings.caps.tallies);
    if room < store.pay.tallies.len() as u128 + rows.len() as u128 {
        return Ok(table_full(alloc, TableName::Tallies));
    }
    hour_tallied(alloc, store, time, rows)
}

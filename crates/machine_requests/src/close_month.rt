// The operator closes the next month: each node that has joined by then gets its statement.
ghost use Rattle.std.specs.Prelude.{◌≡◌, ◌<◌, map, IfOk};
ghost use Rattle.tally_payout.specs.Tariff.{tariff_in, rates_of};
ghost use Rattle.month_pay.specs.Months.{month_at};
ghost use Rattle.machine_calls.specs.declared.change.RecChange.TheVariants as changes;
ghost use Rattle.month_pay.specs.Ledger.{month_rows};
ghost use Rattle.machine_step.specs.Bounds.{IsValid};
ghost use Rattle.machine_step.specs.Calls.CloseMonth.{month_closed, close_next, close_month};
ghost use Rattle.machine_step.specs.Tables.{ledger_of};
ghost use Rattle.machine_store.specs.Prepared.{Holds};
ghost use Rattle.machine_store.specs.Store.{tables_of, GoesByTables};

use machine_calls::{RecChange, Refusal, Reply, TableName};
use machine_store::{Prepared, Store, accepted_all, pots_of, refused, table_full, unchanged};
use month_sums::{close_all, month_at};
use sat_base::{Marks, Moment, Month, NoMemory, Rates};
use std::alloc::Global;
use tally_payout::{Statement, rates_in};

// The rates of the next month to close.
fn rates_due(alloc: Global, store: &Store) -> Result<Rates, NoMemory>
    ensures { IfOk result (λ rates. rates ≡ rates_of (tariff_in (tables_of store.now).marks.month.0 (tables_of store.now).tariffs)) }
{
    let tariffs = store.tariffs.copied(alloc)?;
    Ok(rates_in(tariffs.as_slice(), store.marks.month))
}

// The statements of the next month to close.
fn month_rows(alloc: Global, store: &Store) -> Result<Vec<Statement>, NoMemory>
    requires valid { IsValid (tables_of store.now) }
    requires own { GoesByTables store.now }
    ensures { IfOk result (λ rows. rows.items ≡ month_rows (ledger_of (tables_of store.now)) (tables_of store.now).marks.month.0) }
{
    let pots = pots_of(alloc, store)?;
    let rates = rates_due(alloc, store)?;
    close_all(
        alloc,
        store.marks.month,
        store.nodes.nodes(),
        pots.as_slice(),
        &store.pay.sums,
        &store.left,
        &rates,
    )
}

// A record that is put for each statement.
fn puts_of(alloc: Global, rows: Vec<Statement>) -> Result<Vec<RecChange>, NoMemory>
    ensures { IfOk result (λ puts. puts.items ≡ map changes.Statement rows.items) }
{
    let puts = rows
        .into_iter()
        .map(|row| RecChange::Statement(row))
        .collect(alloc)?;
    Ok(puts)
}

fn month_closed(
    alloc: Global,
    store: &Store,
    time: Moment,
    rows: Vec<Statement>,
) -> Result<Prepared, NoMemory>
    requires later { (tables_of store.now).marks.month.0 < month_at time }
    requires rows { rows.items ≡ month_rows (ledger_of (tables_of store.now)) (tables_of store.now).marks.month.0 }
    ensures { IfOk result (λ p. Holds p (month_closed (tables_of store.now) time)) }
{
    let month = store.marks.month;
    // a month that ended has a next one
    let _now = month_at(time);
    let marks = Marks {
        time,
        month: Month(month.0 + 1),
        ..store.marks
    };
    let reply = Reply::Closed { month, fresh: true };
    accepted_all(alloc, marks, puts_of(alloc, rows)?, reply)
}

fn close_next(alloc: Global, store: &Store, time: Moment) -> Result<Prepared, NoMemory>
    requires valid { IsValid (tables_of store.now) }
    requires own { GoesByTables store.now }
    requires later { (tables_of store.now).marks.month.0 < month_at time }
    ensures { IfOk result (λ p. Holds p (close_next (tables_of store.now) time)) }
{
    let rows = month_rows(alloc, store)?;
    let room = u128::from(store.settings.caps.statements);
    if room < store.pay.statements.len() as u128 + rows.len() as u128 {
        return Ok(table_full(alloc, TableName::Statements));
    }
    month_closed(alloc, store, time, rows)
}

pub(crate) fn close_month(
    alloc: Global,
    store: &Store,
    time: Moment,
    month: Month,
) -> Result<Prepared, NoMemory>
    requires valid { IsValid (tables_of store.now) }
    requires own { GoesByTables store.now }
    ensures { IfOk result (λ p. Holds p (close_month (tables_of store.now) time month)) }
{
    let now = month_at(time);
    if now.0 <= month.0 {
        return Ok(refused(alloc, Refusal::MonthOpen { now }));
    }
    let next = store.marks.month;
    if next.0 < month.0 {
        return Ok(refused(alloc, Refusal::MonthOrder { next }));
    }
    if month.0 < next.0 {
        return Ok(unchanged(
            alloc,
            Reply::Closed {
                month,
                fresh: false,
            },
        ));
    }
    close_next(alloc, store, time)
}

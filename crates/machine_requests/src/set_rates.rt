// The operator sets the rates from a month on that hasn't begun.
ghost use Rattle.std.specs.Prelude.{◌≡◌, IfOk};
ghost use Rattle.machine_step.specs.Calls.SetRates.{same_rates, rates_set, set_rates};
ghost use Rattle.machine_store.specs.Prepared.{Holds};
ghost use Rattle.machine_store.specs.Store.{tables_of};

use machine_calls::{RecChange, Refusal, Reply, TableName};
use machine_store::{Prepared, Store, accepted, refused, table_full, unchanged};
use month_sums::month_at;
use sat_base::{Moment, Month, NoMemory, Rates, Tariff, limits};
use std::alloc::Global;

fn are_same(one: &Rates, other: &Rates) -> bool
    ensures { result ≡ same_rates one.now other.now }
{
    one.get == other.get
        && one.audit == other.audit
        && one.repair == other.repair
        && one.storage == other.storage
}

fn rates_set(
    alloc: Global,
    store: &Store,
    time: Moment,
    month: Month,
    rates: Rates,
) -> Result<Prepared, NoMemory>
    ensures { IfOk result (λ p. Holds p (rates_set (tables_of store.now) time month rates)) }
{
    let put = RecChange::Tariff(Tariff { from: month, rates });
    accepted(alloc, store.marks_at(time), put, Reply::RatesSet { month })
}

pub(crate) fn set_rates(
    alloc: Global,
    store: &Store,
    time: Moment,
    month: Month,
    rates: Rates,
) -> Result<Prepared, NoMemory>
    ensures { IfOk result (λ p. Holds p (set_rates (tables_of store.now) time month rates)) }
{
    let found = store.tariffs.get(u128::from(month.0));
    if let Some(found) = found {
        if are_same(&found.rates, &rates) {
            return Ok(unchanged(alloc, Reply::RatesSet { month }));
        }
    }
    let now = month_at(time);
    if month.0 <= now.0 {
        return Ok(refused(alloc, Refusal::MonthBegun { now }));
    }
    if found.is_none() && limits::TARIFFS as usize <= store.tariffs.len() {
        return Ok(table_full(alloc, TableName::Tariffs));
    }
    rates_set(alloc, store, time, month, rates)
}

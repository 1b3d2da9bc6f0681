// What each node did in each month, counted over all rows.
ghost use Rattle.std.specs.Prelude.{◌≡◌, ℕ, ◌*◌, ◌^◌, ◌<◌, map, replicate, List, [], None, IfOk, OnOk};
ghost use Rattle.sat_base.specs.Moments.{IsMoment};
ghost use Rattle.rows.specs.Rows.{Each, row_at};
ghost use Rattle.rows.specs.Slots.{with_row};
ghost use Rattle.settlement.specs.declared.row.SettledRow.{SettledRow};
ghost use Rattle.settlement.specs.Rows.{key};
ghost use Rattle.tally_payout.specs.Ranks.{tally_rank};
ghost use Rattle.tally_payout.specs.Tariff.{IsSums};
ghost use Rattle.tally_payout.specs.declared.amounts.Tally.{Tally};
ghost use Rattle.tally_payout.specs.declared.amounts.Statement.{Statement};
ghost use Rattle.month_pay.specs.Months.{month_at, month_of_hour};
ghost use Rattle.month_sums.specs.Open.{sums_at, GoByRows, AreInBounds};
ghost use Rattle.month_sums.specs.Counting.{AreOrders, AreHours, AreSmall};

use crate::sums::{OpenSums, add_settled, month_settled, number, owner, place_of, sums_at};
use crate::tally::{add_tally, month_of_hour, node_tallied};
use rows::SlottedRows;
use sat_base::{NoMemory, NodeId};
use settlement::SettledRow;
use std::alloc::Global;
use tally_payout::{Statement, Sums, Tally};

// A number of eight bytes.
fn eight_bytes(number: u64) -> u64
    ensures same { result ≡ number }
    ensures low { result < 2 ^ 64 }
{
    number
}

// Counts an order where there may be no slot yet.
fn count_settled(counted: &mut SlottedRows<OpenSums>, row: &SettledRow) -> Result<(), NoMemory>
    requires room { row.now.node.0 < 2 ^ 32 → IsSums (sums_at counted.old.rows (month_at row.now.at) row.now.node) }
    ensures counts { OnOk result ((settled : List SettledRow) (tallies : List Tally) (statements : List Statement)
        → row_at key settled (key row.now) ≡ None → GoByRows counted.old.rows settled tallies statements
        → GoByRows counted.new.rows (with_row key settled row.now) tallies statements) }
    ensures small { row.now.amount < 2 ^ 64 }
{
    let _amount = eight_bytes(row.amount);
    let node = owner(row);
    counted.place(place_of(month_settled(row), node) as u128)?;
    add_settled(counted, row);
    Ok(())
}

// Counts a tally where there may be no slot yet.
fn count_tally(counted: &mut SlottedRows<OpenSums>, tally: &Tally) -> Result<(), NoMemory>
    requires hour { IsMoment (tally.now.hour.0 * 3600) }
    requires room { tally.now.node.0 < 2 ^ 32 → IsSums (sums_at counted.old.rows (month_of_hour tally.now.hour.0) tally.now.node) }
    ensures { OnOk result ((settled : List SettledRow) (tallies : List Tally) (statements : List Statement)
        → row_at tally_rank tallies (tally_rank tally.now) ≡ None → GoByRows counted.old.rows settled tallies statements
        → GoByRows counted.new.rows settled (with_row tally_rank tallies tally.now) statements) }
{
    let node = node_tallied(tally);
    counted.place(place_of(month_of_hour(tally.hour.0), node) as u128)?;
    add_tally(counted, tally);
    Ok(())
}

/// What each node did in each month, by all orders that settled and all tallies: a place for each month and node that
/// did something.
pub fn count_all(
    alloc: Global,
    settled: &[SettledRow],
    tallies: &[Tally],
) -> Result<SlottedRows<OpenSums>, NoMemory>
    requires orders { AreOrders settled.now }
    requires hours { AreHours tallies.now }
    ensures rows { IfOk result (λ sums. GoByRows sums.rows settled.now tallies.now []) }
    ensures fit { IfOk result (λ sums. AreInBounds sums.rows) }
    ensures small { IfOk result (λ sums. AreSmall settled.now) }
{
    let mut counted = SlottedRows::new(alloc);
    for i in 0..settled.len() {
        count_settled(&mut counted, &settled[i])?;
    }
    for j in 0..tallies.len() {
        count_tally(&mut counted, &tallies[j])?;
    }
    Ok(counted)
}

/// The pots of so many nodes before the first statement: nothing is held.
pub fn no_pots(alloc: Global, nodes: usize) -> Result<Vec<u128>, NoMemory>
    ensures { IfOk result (λ pots. pots.items ≡ replicate nodes 0) }
{
    let mut pots = Vec::new(alloc);
    for _ in 0..nodes {
        pots.push(0)?;
    }
    Ok(pots)
}

// Whose statement it is.
fn whose(row: &Statement) -> NodeId
    ensures node { result ≡ row.now.node }
    ensures low { result.0 < 2 ^ 32 }
{
    NodeId(number(row.node.0))
}

// The sums that a statement is to have.
fn sums_of(counted: &SlottedRows<OpenSums>, row: &Statement) -> Sums
    requires { AreInBounds counted.now.rows }
    ensures sums { result ≡ sums_at counted.now.rows row.now.month.0 row.now.node }
    ensures fit { IsSums result }
    ensures low { row.now.node.0 < 2 ^ 32 }
{
    sums_at(counted, row.month, whose(row))
}

/// The sums that each statement is to have, as they were counted.
pub fn sums_due(
    alloc: Global,
    rows: &[Statement],
    counted: &SlottedRows<OpenSums>,
) -> Result<Vec<Sums>, NoMemory>
    requires { AreInBounds counted.now.rows }
    ensures sums { IfOk result (λ sums. sums.items ≡ map (λ s. sums_at counted.now.rows s.month.0 s.node) rows.now) }
    ensures fit { IfOk result (λ sums. Each IsSums sums.items) }
    ensures low { IfOk result (λ sums. Each (λ s. s.node.0 < 2 ^ 32) rows.now) }
{
    let mut sums = Vec::new(alloc);
    for row in rows {
        sums.push(sums_of(counted, row))?;
    }
    Ok(sums)
}

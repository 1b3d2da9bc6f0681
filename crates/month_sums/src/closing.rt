ghost use Rattle.std.specs.Prelude.{◌≡◌, ℕ, ◌^◌, ◌<◌, ◌≤◌, ◌&&◌, ◌++◌, false, IfOk, OnOk};
ghost use Rattle.sat_base.specs.declared.limits.TheConstants as limits;
ghost use Rattle.tally_payout.specs.Tariff.{IsSums, IsRates};
ghost use Rattle.month_pay.specs.Months.{month_at};
ghost use Rattle.node_registry.specs.Standing.{is_disqualified};
ghost use Rattle.month_pay.specs.Ledger.{Ledger, has_joined, has_left, month_rows};
ghost use Rattle.month_sums.specs.Open.{sums_at};
ghost use Rattle.month_sums.specs.Closing.{closed_by, row_by, rows_by, CanClose, GoByLedger};

use crate::sums::{OpenSums, sums_at};
use node_registry::{Left, Node, Status};
use rows::SlottedRows;
use sat_base::{Moment, Month, NoMemory, NodeId, Rates, month_of};
use std::alloc::Global;
use tally_payout::{Statement, close_node};

/// The month of a moment. A [`Moment`] is of a month that there is.
pub fn month_at(at: Moment) -> Month
    ensures { result.0 ≡ month_at at }
{
    match month_of(at) {
        Ok(month) => month,
        Err(_) => unreachable!(),
    }
}

#[tactic(auto, unfolding(month_pay::specs::Ledger::has_joined))]
pub(crate) fn has_joined(node: &Node, month: Month) -> bool
    ensures { result ≡ has_joined month.0 node.now }
{
    month_at(node.joined).0 <= month.0
}

// Whether a node has left in good order by a month.
pub(crate) fn has_left(left: &SlottedRows<Left>, node: NodeId, month: Month) -> bool
    ensures { result ≡ has_left left.now.rows node month.0 }
{
    let _rows = left.len();
    match left.get(u128::from(node.0)) {
        Some(row) => month_at(row.at).0 <= month.0,
        None => false,
    }
}

pub(crate) fn is_disqualified(node: &Node) -> bool
    ensures { result ≡ is_disqualified node.now.status }
{
    matches!(node.status, Status::Disqualified)
}

// The statement of a node.
fn close_one(
    month: Month,
    node: &Node,
    pot: u128,
    sums: &SlottedRows<OpenSums>,
    left: &SlottedRows<Left>,
    rates: &Rates,
) -> Statement
    requires early { month.0 ≤ limits.LAST_MONTH }
    requires joined { month_at node.now.joined ≤ month.0 }
    requires pot { pot < 2 ^ 100 }
    requires sums { IsSums (sums_at sums.now.rows month.0 node.now.id) }
    requires rates { IsRates rates.now }
    requires apart { is_disqualified node.now.status && has_left left.now.rows node.now.id month.0 ≡ false }
    ensures { result ≡ closed_by month.0 node.now pot sums.now.rows left.now.rows rates.now }
{
    let age = month.0 + 1 - month_at(node.joined).0;
    let gone = is_disqualified(node);
    let exited = has_left(left, node.id, month);
    let sums = sums_at(sums, month, node.id);
    close_node(node.id, month, age, gone, exited, &sums, pot, rates)
}

// Adds the statement of a node that has joined.
fn add_row(
    rows: &mut Vec<Statement>,
    month: Month,
    node: &Node,
    pot: u128,
    sums: &SlottedRows<OpenSums>,
    left: &SlottedRows<Left>,
    rates: &Rates,
) -> Result<(), NoMemory>
    requires early { month.0 ≤ limits.LAST_MONTH }
    requires pot { pot < 2 ^ 100 }
    requires sums { IsSums (sums_at sums.now.rows month.0 node.now.id) }
    requires rates { IsRates rates.now }
    requires apart { is_disqualified node.now.status && has_left left.now.rows node.now.id month.0 ≡ false }
    ensures { OnOk result (rows.new.items ≡ rows.old.items ++ row_by month.0 node.now pot sums.now.rows left.now.rows rates.now) }
{
    if has_joined(node, month) {
        let row = close_one(month, node, pot, sums, left, rates);
        rows.push(row)?;
    }
    Ok(())
}

/// The statements of a month that is closed, in the order of the nodes. It costs a look-up for each node.
pub fn close_all(
    alloc: Global,
    month: Month,
    nodes: &[Node],
    pots: &[u128],
    sums: &SlottedRows<OpenSums>,
    left: &SlottedRows<Left>,
    rates: &Rates,
) -> Result<Vec<Statement>, NoMemory>
    requires { CanClose month.0 nodes.now pots.now sums.now.rows left.now.rows rates.now }
    ensures rows { IfOk result (λ rows. rows.items ≡ rows_by month.0 sums.now.rows left.now.rows rates.now nodes.now pots.now) }
    ensures months { IfOk result (λ rows. (l : Ledger) → l.next ≡ month.0 → l.nodes ≡ nodes.now
        → GoByLedger l pots.now sums.now.rows left.now.rows rates.now → rows.items ≡ month_rows l month.0) }
{
    let mut rows = Vec::new(alloc);
    for i in 0..nodes.len() {
        add_row(&mut rows, month, &nodes[i], pots[i], sums, left, rates)?;
    }
    Ok(rows)
}

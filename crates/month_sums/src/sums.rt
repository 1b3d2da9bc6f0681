ghost use Rattle.std.specs.Prelude.{◌≡◌, ◌^◌, ◌<◌, true, List, None};
ghost use Rattle.rows.specs.Rows.{row_at};
ghost use Rattle.rows.specs.Slots.{has_slot, with_row};
ghost use Rattle.settlement.specs.declared.row.SettledRow.{SettledRow};
ghost use Rattle.settlement.specs.Rows.{key};
ghost use Rattle.tally_payout.specs.Tariff.{IsSums};
ghost use Rattle.tally_payout.specs.declared.amounts.Tally.{Tally};
ghost use Rattle.tally_payout.specs.declared.amounts.Statement.{Statement};
ghost use Rattle.month_pay.specs.Months.{month_at};
ghost use Rattle.tally_payout.specs.Ranks.{month_place};
ghost use Rattle.month_sums.specs.Open.{sums_at, more_of, GoByRows};

use order_limits::Action;
use rows::{Ranked, SlottedRows};
use sat_base::{Month, NodeId, month_of};
use settlement::SettledRow;
use tally_payout::Sums;

/// What a node did in a month that has no statement yet.
#[derive(Clone, Copy)]
pub struct OpenSums {
    pub month: Month,
    pub node: NodeId,
    pub sums: Sums,
}

/// The place of a month and a node in the order of months, and of nodes within one.
pub fn place_of(month: Month, node: NodeId) -> u64
    ensures { result ≡ month_place month.0 node.0 }
{
    month.0 as u64 * (1 << 32) + node.0 as u64
}

/// By its month and its node.
impl Ranked for OpenSums {
    ghost use Rattle.month_sums.specs.Open.{open_rank};

    ghost rank = { open_rank };

    fn rank(&self) -> u128 {
        place_of(self.month, self.node) as u128
    }
}

/// What is kept of a node's month.
pub fn sums_at(rows: &SlottedRows<OpenSums>, month: Month, node: NodeId) -> Sums
    ensures { result ≡ sums_at rows.now.rows month.0 node }
{
    match rows.get(place_of(month, node) as u128) {
        Some(row) => row.sums,
        None => Sums {
            get: 0,
            audit: 0,
            repair: 0,
            byte_hours: 0,
        },
    }
}

// With the bytes of one more order.
fn with_order(sums: Sums, action: Action, amount: u64) -> Sums
    requires { IsSums sums }
    ensures { result ≡ more_of sums action amount }
{
    let amount = u128::from(amount);
    match action {
        Action::Get => Sums {
            get: sums.get + amount,
            ..sums
        },
        Action::GetAudit => Sums {
            audit: sums.audit + amount,
            ..sums
        },
        Action::GetRepair => Sums {
            repair: sums.repair + amount,
            ..sums
        },
        Action::Put | Action::PutRepair => sums,
    }
}

// The month of a settled order.
pub(crate) fn month_settled(row: &SettledRow) -> Month
    ensures { result.0 ≡ month_at row.now.at }
{
    match month_of(row.at) {
        Ok(month) => month,
        Err(_) => unreachable!(),
    }
}

// Whose order it was.
pub(crate) fn owner(row: &SettledRow) -> NodeId
    ensures node { result ≡ row.now.node }
    ensures low { result.0 < 2 ^ 32 }
{
    NodeId(number(row.node.0))
}

// A number of four bytes.
pub(crate) fn number(id: u32) -> u32
    ensures same { result ≡ id }
    ensures low { result < 2 ^ 32 }
{
    id
}

/// Counts an order that settles. It takes no memory.
pub fn add_settled(rows: &mut SlottedRows<OpenSums>, row: &SettledRow)
    requires slot { has_slot rows.old (month_place (month_at row.now.at) row.now.node.0) ≡ true }
    requires room { IsSums (sums_at rows.old.rows (month_at row.now.at) row.now.node) }
    ensures slots { rows.new.slots ≡ rows.old.slots }
    ensures keeps { (settled : List SettledRow) (tallies : List Tally) (statements : List Statement)
        → row_at key settled (key row.now) ≡ None → GoByRows rows.old.rows settled tallies statements
        → GoByRows rows.new.rows (with_row key settled row.now) tallies statements }
{
    let month = month_settled(row);
    let node = owner(row);
    let sums = with_order(sums_at(rows, month, node), row.action, row.amount);
    rows.put(OpenSums { month, node, sums });
}

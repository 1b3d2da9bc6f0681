ghost use Rattle.std.specs.Prelude.{◌≡◌, ◌*◌, ◌^◌, ◌<◌, true, List, None};
ghost use Rattle.sat_base.specs.Moments.{IsMoment};
ghost use Rattle.rows.specs.Rows.{row_at};
ghost use Rattle.rows.specs.Slots.{has_slot, with_row};
ghost use Rattle.settlement.specs.declared.row.SettledRow.{SettledRow};
ghost use Rattle.tally_payout.specs.Tariff.{IsSums};
ghost use Rattle.tally_payout.specs.declared.amounts.Tally.{Tally};
ghost use Rattle.tally_payout.specs.declared.amounts.Statement.{Statement};
ghost use Rattle.month_pay.specs.Months.{month_of_hour};
ghost use Rattle.tally_payout.specs.Ranks.{month_place, tally_rank};
ghost use Rattle.month_sums.specs.Open.{sums_at, with_bytes, GoByRows};

use crate::closing::month_at;
use crate::sums::{OpenSums, number, sums_at};
use rows::SlottedRows;
use sat_base::{Moment, Month, NodeId};
use tally_payout::{Sums, Tally};

// The month in which an hour begins.
pub(crate) fn month_of_hour(hour: u64) -> Month
    requires { IsMoment (hour * 3600) }
    ensures { result.0 ≡ month_of_hour hour }
{
    month_at(Moment::of(hour * 3600))
}

// With the bytes of one more hour.
fn with_bytes(sums: Sums, bytes: u64) -> Sums
    requires { IsSums sums }
    ensures { result ≡ with_bytes sums bytes }
{
    Sums {
        byte_hours: sums.byte_hours + u128::from(bytes),
        ..sums
    }
}

// Whose tally it is.
pub(crate) fn node_tallied(tally: &Tally) -> NodeId
    ensures node { result ≡ tally.now.node }
    ensures low { result.0 < 2 ^ 32 }
{
    NodeId(number(tally.node.0))
}

/// Counts a tally. It takes no memory.
pub fn add_tally(rows: &mut SlottedRows<OpenSums>, tally: &Tally)
    requires hour { IsMoment (tally.now.hour.0 * 3600) }
    requires slot { has_slot rows.old (month_place (month_of_hour tally.now.hour.0) tally.now.node.0) ≡ true }
    requires room { IsSums (sums_at rows.old.rows (month_of_hour tally.now.hour.0) tally.now.node) }
    ensures slots { rows.new.slots ≡ rows.old.slots }
    ensures keeps { (settled : List SettledRow) (tallies : List Tally) (statements : List Statement)
        → row_at tally_rank tallies (tally_rank tally.now) ≡ None → GoByRows rows.old.rows settled tallies statements
        → GoByRows rows.new.rows settled (with_row tally_rank tallies tally.now) statements }
{
    let month = month_of_hour(tally.hour.0);
    let node = node_tallied(tally);
    let sums = with_bytes(sums_at(rows, month, node), tally.bytes);
    rows.put(OpenSums { month, node, sums });
}

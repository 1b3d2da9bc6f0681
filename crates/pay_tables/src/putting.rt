// Rows that are put where room was made.
ghost use Rattle.std.specs.Prelude.{◌≡◌, ◌^◌, ◌<◌, true, List, None, length};
ghost use Rattle.sat_base.specs.declared.limits.TheConstants as limits;
ghost use Rattle.sat_base.specs.declared.records.At.{At};
ghost use Rattle.rows.specs.Rows.{row_at};
ghost use Rattle.rows.specs.Slots.{has_slot, with_row};
ghost use Rattle.segment_core.specs.Record.{SegmentRecord};
ghost use Rattle.settlement.specs.declared.row.SettledRow.{SettledRow};
ghost use Rattle.settlement.specs.Rows.{key};
ghost use Rattle.tally_payout.specs.declared.amounts.Statement.{Statement};
ghost use Rattle.tally_payout.specs.declared.amounts.Tally.{Tally};
ghost use Rattle.tally_payout.specs.Ranks.{month_place, tally_rank, statement_rank};
ghost use Rattle.tally_payout.specs.Tariff.{IsSums};
ghost use Rattle.month_pay.specs.Months.{month_at, month_of_hour};
ghost use Rattle.month_sums.specs.Open.{sums_at, GoByRows};
ghost use Rattle.machine_step.specs.Tables.{Setup};
ghost use Rattle.pay_tables.specs.InStep.{IsInStep};
ghost use Rattle.pay_tables.specs.Placed.{IsOrderPlaced, IsTallyPlaced, IsStatementPlaced, ArePiecesPlaced, KeepsPlaces};

use crate::balance::Balance;
use crate::tables::PayTables;
use month_sums::{OpenSums, add_settled, add_tally, place_of};
use rows::SlottedRows;
use settlement::SettledRow;
use tally_payout::{Statement, Tally};

// The range of a number is known where it is passed by itself.
fn four_bytes(number: u32) -> u32
    ensures same { result ≡ number }
    ensures low { result < 2 ^ 32 }
{
    number
}

fn eight_bytes(number: u64) -> u64
    ensures same { result ≡ number }
    ensures low { result < 2 ^ 64 }
{
    number
}

// Counts an order. What the types say of it is within the bounds.
fn add_order(sums: &mut SlottedRows<OpenSums>, row: &SettledRow)
    requires slot { has_slot sums.old (month_place (month_at row.now.at) row.now.node.0) ≡ true }
    requires room { row.now.node.0 < 2 ^ 32 → IsSums (sums_at sums.old.rows (month_at row.now.at) row.now.node) }
    ensures slots { sums.new.slots ≡ sums.old.slots }
    ensures small { row.now.amount < 2 ^ 64 }
    ensures keeps { (settled : List SettledRow) (tallies : List Tally) (statements : List Statement)
        → row_at key settled (key row.now) ≡ None → GoByRows sums.old.rows settled tallies statements
        → GoByRows sums.new.rows (with_row key settled row.now) tallies statements }
{
    let _node = four_bytes(row.node.0);
    let _amount = eight_bytes(row.amount);
    add_settled(sums, row);
}

impl PayTables {
    /// Counts an order that settles. It takes no memory.
    pub fn count_order(&mut self, row: &SettledRow)
        requires placed { IsOrderPlaced self.old row.now }
        requires room { row.now.node.0 < 2 ^ 32 → IsSums (sums_at self.old.sums.rows (month_at row.now.at) row.now.node) }
        ensures tallies { self.new.tallies.rows ≡ self.old.tallies.rows }
        ensures statements { self.new.statements.rows ≡ self.old.statements.rows }
        ensures places { KeepsPlaces self.old self.new }
        ensures keeps { (setup : Setup) (segments : List SegmentRecord) (settled : List SettledRow)
            → row_at key settled (key row.now) ≡ None → length settled < limits.SETTLED
            → IsInStep setup segments settled self.old
            → IsInStep setup segments (with_row key settled row.now) self.new }
    {
        add_order(&mut self.sums, row);
    }

    /// Puts a tally and counts it. It takes no memory.
    pub fn put_tally(&mut self, tally: Tally)
        requires placed { IsTallyPlaced self.old tally }
        requires room { tally.node.0 < 2 ^ 32 → IsSums (sums_at self.old.sums.rows (month_of_hour tally.hour.0) tally.node) }
        ensures tallies { self.new.tallies.rows ≡ with_row tally_rank self.old.tallies.rows tally }
        ensures statements { self.new.statements.rows ≡ self.old.statements.rows }
        ensures order { (row : SettledRow) → IsOrderPlaced self.old row → IsOrderPlaced self.new row }
        ensures others { (other : Tally) → (tally_rank tally ≡ tally_rank other → ⊥)
            → IsTallyPlaced self.old other → IsTallyPlaced self.new other }
        ensures statement { (s : Statement) → IsStatementPlaced self.old s → IsStatementPlaced self.new s }
        ensures pieces { (pieces : List At) → ArePiecesPlaced self.old pieces → ArePiecesPlaced self.new pieces }
        ensures keeps { (setup : Setup) (segments : List SegmentRecord) (settled : List SettledRow)
            → IsInStep setup segments settled self.old → IsInStep setup segments settled self.new }
    {
        add_tally(&mut self.sums, &tally);
        self.tallies.put(tally);
    }

    /// Puts a statement and its pot. What was counted for it isn't kept any longer. It takes no memory.
    pub fn put_statement(&mut self, statement: Statement)
        requires { IsStatementPlaced self.old statement }
        ensures tallies { self.new.tallies.rows ≡ self.old.tallies.rows }
        ensures statements { self.new.statements.rows ≡ with_row statement_rank self.old.statements.rows statement }
        ensures later { (s : Statement) → statement_rank statement < statement_rank s
            → IsStatementPlaced self.old s → IsStatementPlaced self.new s }
        ensures pieces { (pieces : List At) → ArePiecesPlaced self.old pieces → ArePiecesPlaced self.new pieces }
        ensures keeps { (setup : Setup) (segments : List SegmentRecord) (settled : List SettledRow)
            → IsInStep setup segments settled self.old → IsInStep setup segments settled self.new }
    {
        let node = statement.node;
        self.sums
            .remove(u128::from(place_of(statement.month, node)));
        self.pots.put(Balance {
            node,
            amount: statement.pot,
        });
        self.statements.put(statement);
    }
}

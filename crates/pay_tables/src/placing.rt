// Room for what is to be put.
ghost use Rattle.std.specs.Prelude.{◌≡◌, ◌*◌, OnOk};
ghost use Rattle.sat_base.specs.Moments.{IsMoment};
ghost use Rattle.rows.specs.Rows.{Each};
ghost use Rattle.tally_payout.specs.Ranks.{month_place, tally_rank, statement_rank};
ghost use Rattle.month_pay.specs.Months.{month_at, month_of_hour};
ghost use Rattle.month_sums.specs.Open.{open_rank};
ghost use Rattle.pay_tables.specs.Amounts.{balance_rank};
ghost use Rattle.pay_tables.specs.Placed.{IsOrderPlaceable, IsOrderPlaced, IsTallyPlaceable, IsTallyPlaced, IsStatementPlaceable, IsStatementPlaced, ArePiecesPlaced, IsFreed, HasNoMoreSlots, KeepsRows, KeepsPlaces};

use crate::tables::PayTables;
use month_sums::{month_at, place_of};
use rows::Ranked;
use sat_base::{At, Moment, Month, NoMemory};
use settlement::SettledRow;
use tally_payout::{Statement, Tally};

// The month in which an hour begins.
fn month_of_hour(hour: u64) -> Month
    requires { IsMoment (hour * 3600) }
    ensures { result.0 ≡ month_of_hour hour }
{
    month_at(Moment::of(hour * 3600))
}

impl PayTables {
    /// Makes room for an order that settles. Running out of memory leaves all rows, and all room that was there.
    pub fn place_order(&mut self, row: &SettledRow) -> Result<(), NoMemory>
        ensures rows { KeepsRows self.old self.new }
        ensures places { KeepsPlaces self.old self.new }
        ensures placed { OnOk result (IsOrderPlaceable self.old row.now → IsOrderPlaced self.new row.now) }
    {
        self.sums
            .place(u128::from(place_of(month_at(row.at), row.node)))?;
        Ok(())
    }

    /// Makes room for a tally. Running out of memory leaves all rows, and all room that was there.
    pub fn place_tally(&mut self, tally: &Tally) -> Result<(), NoMemory>
        requires { IsMoment (tally.now.hour.0 * 3600) }
        ensures rows { KeepsRows self.old self.new }
        ensures places { KeepsPlaces self.old self.new }
        ensures placed { OnOk result (IsTallyPlaceable self.old tally.now → IsTallyPlaced self.new tally.now) }
    {
        self.tallies.place(tally.rank())?;
        let month = month_of_hour(tally.hour.0);
        self.sums.place(u128::from(place_of(month, tally.node)))?;
        Ok(())
    }

    /// Makes room for a statement. Running out of memory leaves all rows, and all room that was there.
    pub fn place_statement(&mut self, statement: &Statement) -> Result<(), NoMemory>
        ensures rows { KeepsRows self.old self.new }
        ensures places { KeepsPlaces self.old self.new }
        ensures placed { OnOk result (IsStatementPlaceable self.old statement.now → IsStatementPlaced self.new statement.now) }
    {
        self.statements.place(statement.rank())?;
        self.pots.place(statement.node)?;
        Ok(())
    }

    /// Makes room for the bytes of these pieces. Running out of memory leaves all rows, and all room that was there.
    pub fn place_pieces(&mut self, pieces: &[At]) -> Result<(), NoMemory>
        ensures rows { KeepsRows self.old self.new }
        ensures places { KeepsPlaces self.old self.new }
        ensures placed { OnOk result (ArePiecesPlaced self.new pieces.now) }
    {
        self.stored.place_all(pieces)?;
        Ok(())
    }

    /// Gives the room of an order back, where it wasn't put.
    pub fn release_order(&mut self, row: &SettledRow)
        ensures rows { KeepsRows self.old self.new }
        ensures fewer { HasNoMoreSlots self.old self.new }
        ensures sum { IsFreed open_rank self.old.sums self.new.sums (month_place (month_at row.now.at) row.now.node.0) }
    {
        self.sums
            .release(u128::from(place_of(month_at(row.at), row.node)));
    }

    /// Gives the room of a tally back, where it wasn't put.
    pub fn release_tally(&mut self, tally: &Tally)
        requires { IsMoment (tally.now.hour.0 * 3600) }
        ensures rows { KeepsRows self.old self.new }
        ensures fewer { HasNoMoreSlots self.old self.new }
        ensures row { IsFreed tally_rank self.old.tallies self.new.tallies (tally_rank tally.now) }
        ensures sum { IsFreed open_rank self.old.sums self.new.sums (month_place (month_of_hour tally.now.hour.0) tally.now.node.0) }
    {
        self.tallies.release(tally.rank());
        let month = month_of_hour(tally.hour.0);
        self.sums.release(u128::from(place_of(month, tally.node)));
    }

    /// Gives the room of a statement back, where it wasn't put.
    pub fn release_statement(&mut self, statement: &Statement)
        ensures rows { KeepsRows self.old self.new }
        ensures fewer { HasNoMoreSlots self.old self.new }
        ensures row { IsFreed statement_rank self.old.statements self.new.statements (statement_rank statement.now) }
        ensures pot { IsFreed balance_rank self.old.pots self.new.pots statement.now.node.0 }
    {
        self.statements.release(statement.rank());
        self.pots.release(statement.node);
    }

    /// Gives the room of these pieces back, where their nodes have no row.
    pub fn release_pieces(&mut self, pieces: &[At])
        ensures rows { KeepsRows self.old self.new }
        ensures fewer { HasNoMoreSlots self.old self.new }
        ensures freed { Each (λ piece. IsFreed balance_rank self.old.stored self.new.stored piece.node.0) pieces.now }
    {
        self.stored.release_all(pieces);
    }
}

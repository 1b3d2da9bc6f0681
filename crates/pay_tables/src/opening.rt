// Tables of given rows.
ghost use Rattle.std.specs.Prelude.{◌≡◌, ◌+◌, ◌*◌, ◌^◌, ◌<◌, ◌≤◌, List, [], length, IfOk, OnOk};
ghost use Rattle.sat_base.specs.Moments.{IsMoment};
ghost use Rattle.sat_base.specs.declared.limits.TheConstants as limits;
ghost use Rattle.sat_base.specs.declared.ids.NodeId.{NodeId};
ghost use Rattle.rows.specs.Rows.{Each, IsRising};
ghost use Rattle.settlement.specs.declared.row.SettledRow.{SettledRow};
ghost use Rattle.tally_payout.specs.declared.amounts.Tally.{Tally};
ghost use Rattle.tally_payout.specs.Ranks.{tally_rank, statement_rank};
ghost use Rattle.month_sums.specs.Open.{GoByRows};
ghost use Rattle.machine_step.specs.Stored.{share_of};
ghost use Rattle.machine_step.specs.Tables.{setup_of};
ghost use Rattle.pay_tables.specs.Amounts.{amount_at, live_bytes, GoBySegments, GoByStatements};
ghost use Rattle.pay_tables.specs.InStep.{IsInStep, IsSmallOrder, IsShort};

use crate::balance::{Balance, Balances};
use crate::stored::live_bytes;
use crate::tables::PayTables;
use month_sums::OpenSums;
use rows::{Ranked, SlottedRows};
use sat_base::{NoMemory, Settings};
use segment_core::Segment;
use std::alloc::Global;
use tally_payout::{Statement, Tally};

// What was counted for a statement isn't kept.
fn drop_stated(counted: &mut SlottedRows<OpenSums>, statements: &[Statement])
    ensures { (settled : List SettledRow) (tallies : List Tally) → GoByRows counted.old.rows settled tallies []
        → GoByRows counted.new.rows settled tallies statements.now }
{
    for statement in statements {
        counted.remove(statement.rank());
    }
}

// What the last statement of each node left.
fn pots_left(alloc: Global, statements: &[Statement]) -> Result<Balances, NoMemory>
    ensures { IfOk result (λ pots. GoByStatements pots.rows statements.now) }
{
    let mut pots = Balances::new(alloc);
    for statement in statements {
        pots.place(statement.node)?;
        pots.put(Balance {
            node: statement.node,
            amount: statement.pot,
        });
    }
    Ok(pots)
}

// Adds the bytes of a segment to what its nodes store.
fn add_segment(
    stored: &mut Balances,
    segment: &Segment,
    settings: &Settings,
) -> Result<(), NoMemory>
    requires short { IsShort segment.now }
    requires room { (node : NodeId) → amount_at stored.old.rows node + live_bytes (setup_of settings.now) segment.now < 2 ^ 128 }
    ensures { OnOk result ((node : NodeId) → amount_at stored.new.rows node
        ≡ amount_at stored.old.rows node + share_of (setup_of settings.now) node segment.now) }
{
    let pieces = segment.pieces.as_slice();
    stored.place_all(pieces)?;
    stored.raise(pieces, live_bytes(settings, segment));
    Ok(())
}

// The bytes that each node stores of these segments.
fn bytes_stored(
    alloc: Global,
    segments: &[Segment],
    settings: &Settings,
) -> Result<Balances, NoMemory>
    requires { Each IsShort segments.now }
    ensures { IfOk result (λ stored. GoBySegments (setup_of settings.now) stored.rows segments.now) }
{
    let mut stored = Balances::new(alloc);
    for i in 0..segments.len() {
        add_segment(&mut stored, &segments[i], settings)?;
    }
    Ok(stored)
}

impl PayTables {
    /// The tables of these tallies and statements, of the sums that were counted over all rows, and of these segments.
    pub fn of(
        alloc: Global,
        tallies: Vec<Tally>,
        statements: Vec<Statement>,
        counted: SlottedRows<OpenSums>,
        segments: &[Segment],
        settings: &Settings,
    ) -> Result<PayTables, NoMemory>
        requires tallies { IsRising tally_rank tallies.items }
        requires statements { IsRising statement_rank statements.items }
        requires short { Each IsShort segments.now }
        ensures tallies { IfOk result (λ p. p.tallies.rows ≡ tallies.items) }
        ensures statements { IfOk result (λ p. p.statements.rows ≡ statements.items) }
        ensures step { IfOk result (λ p. (settled : List SettledRow) → GoByRows counted.rows settled tallies.items []
            → Each IsSmallOrder settled → length settled ≤ limits.SETTLED
            → Each (λ row. row.bytes ≤ 2 ^ 44) tallies.items → Each (λ row. IsMoment (row.hour.0 * 3600)) tallies.items
            → IsInStep (setup_of settings.now) segments.now settled p) }
    {
        let mut sums = counted;
        drop_stated(&mut sums, statements.as_slice());
        let pots = pots_left(alloc, statements.as_slice())?;
        let stored = bytes_stored(alloc, segments, settings)?;
        Ok(PayTables {
            tallies: SlottedRows::of(alloc, tallies)?,
            statements: SlottedRows::of(alloc, statements)?,
            sums,
            stored,
            pots,
        })
    }
}

ghost use Rattle.std.specs.Prelude.{◌≡◌, ℕ, ◌<◌, ◌≤◌, ◌+◌, ◌-◌, ◌*◌, List, [], length, IsNone, IsSome, IfOk, IfErr, OnOk, OnErr, Ok, Err};
ghost use Rattle.std.specs.Option.{option_copied};
ghost use Rattle.rows.specs.Rows.{IsRising};
ghost use Rattle.settlement.specs.Place.{place};
ghost use Rattle.settlement.specs.Rows.{key, row_of, next_of, added, Kept};
ghost use Rattle.settlement.specs.Settle.{fresh, order_settlable, settlable, settled_as, rows_after, UnlessMemory, IfNew, IfSettled, IsRowOf, SettlesFirst, KeepsRows};

use crate::answer::{Settlable, SettleErr, Settling};
use crate::row::{SettledRow, place_of};
use order_limits::{Keys, Order, SETTLE_TIME, read_order};
use rows::BlockRows;
use sat_base::{Moment, NoMemory, NodeId, Serial};
use std::alloc::Global;
use std::marker::Model;

/// The settled orders of a store: one row for each pair of a serial and a node, in their order.
///
/// Contracts see the list of the rows, the cap on their number, and `spare`, the number of rows for which
/// there is room; the rows rise by serial and node, as each call tells. A look-up costs the logarithm of the rows; adding a row moves a few hundred at most, and now and
/// then the list of their blocks.
pub struct Settled {
    rows: BlockRows<SettledRow>,
    count: u32,
    cap: u32,
}

// By hand, so that it is taken apart here, and not anew wherever one is let go.
impl Drop for Settled {
    fn drop(self) {
        let Settled {
            rows: _,
            count: _,
            cap: _,
        } = self;
    }
}

impl Model for Settled {
    ghost Value = { Kept };

    ghost view = { λ s. record { rows = s.rows.rows; cap = s.cap; spare = s.rows.spare } };

    ghost invariant = { λ s. record {
      count : s.count ≡ length s.rows.rows;
      below : s.count ≤ s.cap;
      rise : IsRising key s.rows.rows;
    } };
}

impl Settled {
    /// A table without rows, which will have at most `cap`.
    pub fn new(alloc: Global, cap: u32) -> Self
        ensures rows { result.rows ≡ [] }
        ensures cap { result.cap ≡ cap }
    {
        Settled {
            rows: BlockRows::new(alloc),
            count: 0,
            cap,
        }
    }

    // The row of a serial and a node.
    fn row(&self, serial: Serial, node: NodeId) -> Option<&SettledRow>
        ensures { option_copied result ≡ row_of self.now.rows (place serial node) }
    {
        self.rows.get(place_of(serial, node))
    }

    /// The first row above a serial and a node, or the first of all where none is named. None where there
    /// is no such row.
    pub fn next_row(&self, after: Option<(Serial, NodeId)>) -> Option<&SettledRow>
        ensures row { option_copied result ≡ next_of self.now.rows after }
        ensures rows_rise { IsRising key self.now.rows }
    {
        match after {
            None => self.rows.first(),
            Some((serial, node)) => self.rows.after(place_of(serial, node)),
        }
    }

    /// Makes room for one more row. Running out of memory leaves the rows as they were.
    pub fn reserve(&mut self) -> Result<(), NoMemory>
        ensures ok { OnOk result (1 ≤ self.new.spare) }
        ensures rows { self.new.rows ≡ self.old.rows }
        ensures cap { self.new.cap ≡ self.old.cap }
    {
        self.rows.reserve()
    }

    /// Adds a row for which there is room, below the cap, and whose serial and node have none. It takes no
    /// memory.
    pub fn add(&mut self, row: SettledRow)
        requires room { 1 ≤ self.old.spare }
        requires below { length self.old.rows < self.old.cap }
        requires absent { row_of self.old.rows (key row) ≡ None }
        ensures rows { self.new.rows ≡ added row self.old.rows }
        ensures rows_rise { IsRising key self.new.rows }
        ensures cap { self.new.cap ≡ self.old.cap }
        ensures spare { self.new.spare + 1 ≡ self.old.spare }
    {
        self.rows.add(row);
        self.count += 1;
    }

    // What an order answers whose serial and node have no row yet.
    #[tactic(auto, unfolding(crate::specs::Settle::fresh))]
    fn fresh(&self, order: &Order, now: Moment) -> Result<Settlable, SettleErr>
        ensures answer { result ≡ fresh self.now.rows self.now.cap order.now now }
        ensures room { IfNew result (λ _. length self.now.rows < self.now.cap) }
    {
        let limit = order.limit;
        let amount = order.amount;
        let until = limit.expires.saturating_add(SETTLE_TIME);
        if until < now.seconds() {
            return Err(SettleErr::Late { until });
        }
        if limit.limit < amount {
            return Err(SettleErr::OverLimit { limit: limit.limit });
        }
        if self.count == self.cap {
            return Err(SettleErr::SettledFull { cap: self.cap });
        }
        Ok(Settlable::New(SettledRow {
            serial: limit.serial,
            node: limit.node,
            action: limit.action,
            amount,
            at: now,
        }))
    }

    // What an order answers that a node presents.
    #[tactic(auto, unfolding(crate::specs::Settle::order_settlable, crate::specs::Settle::beside))]
    fn order_answer(&self, order: &Order, node: NodeId, now: Moment) -> Result<Settlable, SettleErr>
        ensures answer { result ≡ order_settlable self.now.rows self.now.cap node now order.now }
        ensures room { IfNew result (λ _. length self.now.rows < self.now.cap) }
    {
        let limit = order.limit;
        if limit.node.0 != node.0 {
            return Err(SettleErr::OtherNode {
                limit_node: limit.node,
            });
        }
        match self.row(limit.serial, limit.node) {
            None => self.fresh(order, now),
            Some(row) => {
                if row.amount == order.amount {
                    Ok(Settlable::Again {
                        amount: order.amount,
                    })
                } else {
                    Err(SettleErr::Differs { kept: row.amount })
                }
            }
        }
    }

    /// What [`Settled::settle`] would answer now, with the row that it would add. It changes nothing and
    /// takes no memory.
    #[tactic(auto, unfolding(crate::specs::Settle::settlable))]
    pub fn check(
        &self,
        keys: &Keys,
        node: NodeId,
        now: Moment,
        bytes: &[u8],
    ) -> Result<Settlable, SettleErr>
        ensures answer { result ≡ settlable self.now.rows self.now.cap keys.now node now bytes.now }
        // A row that it names is that of a good order, and can be added.
        ensures good { IfNew result (IsRowOf keys.now node now bytes.now) }
        ensures room { IfNew result (λ _. length self.now.rows < self.now.cap) }
        ensures absent { IfNew result (λ row. row_of self.now.rows (key row) ≡ None) }
        ensures rows_rise { IsRising key self.now.rows }
    {
        // read, so that its rows are known to rise whatever the answer
        let _rows = &self.rows;
        match read_order(keys, bytes) {
            Ok(order) => self.order_answer(&order, node, now),
            Err(e) => Err(e.into()),
        }
    }

    /// Settles an order of 123 bytes that a node presents at a moment.
    ///
    /// The refusals are tested in the order of [`SettleErr`]. Between `OtherNode` and `Differs` an order
    /// whose serial, node and amount are those of a row is answered `Again`. Any refusal and `Again` leave
    /// the rows as they were; otherwise one row is added.
    pub fn settle(
        &mut self,
        keys: &Keys,
        node: NodeId,
        now: Moment,
        bytes: &[u8],
    ) -> Result<Settling, SettleErr>
        ensures answer { UnlessMemory result (result ≡ settled_as (settlable self.old.rows self.old.cap keys.now node now bytes.now)) }
        ensures rows { UnlessMemory result (self.new.rows ≡ rows_after (settlable self.old.rows self.old.cap keys.now node now bytes.now) self.old.rows) }
        ensures memory { result ≡ Err SettleErr.NoMemory → self.new.rows ≡ self.old.rows }

        // At most once: what is settled had no row of its serial and node, and has one from now on.
        ensures first { IfSettled result (SettlesFirst self.old.rows self.new.rows keys.now node now bytes.now) }
        ensures kept { KeepsRows self.old.rows self.new.rows }
        ensures rows_rise { IsRising key self.new.rows }
        ensures cap { self.new.cap ≡ self.old.cap }
    {
        match self.check(keys, node, now, bytes) {
            Err(e) => Err(e),
            Ok(Settlable::Again { amount }) => Ok(Settling::Again { amount }),
            Ok(Settlable::New(row)) => {
                let amount = row.amount;
                if self.reserve().is_err() {
                    return Err(SettleErr::NoMemory);
                }
                self.add(row);
                Ok(Settling::Settled { amount })
            }
        }
    }
}

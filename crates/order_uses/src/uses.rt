// The rows, in memory and in a keeper.
ghost use Rattle.std.specs.Prelude.{◌≡◌, Some, true, IfOk, IfErr, IfSome, IsSome, option_copied};
ghost use Rattle.order_uses.specs.Due.{due_of};
ghost use Rattle.order_uses.specs.Opening.{HasSerial};
ghost use Rattle.order_uses.specs.Take.{take_case};
ghost use Rattle.order_uses.specs.Uses.{AreUses, IsUnderKey, use_at};
ghost use Rattle.order_uses.specs.View.{Finishes, IsKept, IsLeft, Opens, Refuses, Takes, Writes};

use crate::counting::take_case;
use crate::keeping::keep_row;
use crate::loading::load_uses;
use crate::opening::UsesErr;
use crate::row::OrderUse;
use crate::table::UseTable;
use crate::take::{TakeErr, Wanted};
use sat_base::{Committed, Keeper, NodeId, Serial};
use std::alloc::Global;
use std::marker::Model;
use std::snapshot::Snapshot;

/// The orders that a node serves under, one row of a serial, each of which is in the keeper before a call returns.
///
/// Contracts see the rows, by serial; the node, its key and the most rows that there may be; and the keeper, as it was
/// handed in and as it is now.
pub struct Uses<K: Keeper> {
    alloc: Global,
    node: NodeId,
    cap: u32,
    table: UseTable,
    // as it was handed in. A snapshot has no bytes
    first: Snapshot<K>,
    keeper: K,
}

// By hand, so that it is taken apart here, and not anew wherever one is let go.
impl<K: Keeper + Drop> Drop for Uses<K> {
    fn drop(self) {
        let Uses {
            alloc: _,
            node: _,
            cap: _,
            table: _,
            first: _,
            keeper: _,
        } = self;
    }
}

impl<K: Keeper> Model for Uses<K> {
    ghost use Rattle.order_uses.specs.View.{UsesView, IsKept};

    ghost Value = { UsesView K };

    ghost view = { λ u. record {
      rows = u.table.rows;
      node = u.node;
      key = u.table.key;
      cap = u.cap;
      first = u.first.value;
      keeper = u.keeper;
    } };

    ghost invariant = { λ u. IsKept K.about (record {
      rows = u.table.rows;
      node = u.node;
      key = u.table.key;
      cap = u.cap;
      first = u.first.value;
      keeper = u.keeper;
    }) };
}

impl<K: Keeper> Uses<K> {
    /// Opens the uses of a node over a keeper: reads all rows. There will be at most `cap` rows.
    ///
    /// Errors, with the keeper handed back, its rows as they were: `Fault` where its count of faults rose; `BadRow` names
    /// the first row, in the order of the keys, that is none of a use under the node's key; `NoMemory` has no cause that
    /// a clause names.
    pub fn open(
        alloc: Global,
        keeper: K,
        node: NodeId,
        key: [u8; 32],
        cap: u32,
    ) -> Result<Uses<K>, (K, UsesErr)>
        ensures opened { IfOk result (Opens K.about keeper node key cap) }
        ensures refused { IfErr result (λ no. Refuses K.about
            key keeper no.0 no.1) }
    {
        let mut keeper = keeper;
        let first = Snapshot::of(&keeper);
        match load_uses(alloc, &mut keeper, &key) {
            Ok(table) => Ok(Uses {
                alloc,
                node,
                cap,
                table,
                first,
                keeper,
            }),
            Err(why) => Err((keeper, why)),
        }
    }

    /// Counts bytes before they are served, or kept: the row is in the keeper before this returns `Ok`.
    ///
    /// It is answered by the first refusal that holds, in the order of [`TakeErr`], which changes nothing. `Fault` comes
    /// only where the keeper's count rose, between the two counts, and `NoMemory` has no cause that a clause names; both
    /// leave the rows.
    pub fn take(&mut self, now: u64, wanted: &Wanted) -> Result<(), TakeErr>
        ensures { Takes K.about
            (take_case self.old.node self.old.key self.old.cap self.old.rows now wanted.now) self.old result self.new }
    {
        self.note_moment(now);
        let row = match self.row_taken(now, wanted) {
            Ok(row) => row,
            Err(err) => return Err(err),
        };
        let before = self.count();
        match self.keep(row) {
            Committed::Done => Ok(()),
            Committed::Fault => Err(TakeErr::Fault {
                before,
                after: self.count(),
            }),
            Committed::NoMemory => Err(TakeErr::NoMemory),
        }
    }

    /// The order to offer: of those that are due at this moment, the one of the least serial. An order is due until it is
    /// done, once all of its limit was served or it has expired, and as long as it can be settled. It takes no memory.
    pub fn due(&self, now: u64) -> Option<[u8; 123]>
        ensures { result ≡ due_of self.now.key self.now.rows now }
    {
        self.table.due(now)
    }

    /// Notes that the order of a serial is settled, or never will be. That is in the keeper before this returns `Ok`.
    ///
    /// `Fault` comes only where the keeper's count rose, and `NoMemory` has no cause that a clause names; both leave the
    /// rows.
    pub fn finish(&mut self, serial: Serial) -> Result<(), UsesErr>
        requires { IsSome (use_at self.old.rows serial) }
        ensures { Finishes K.about
            (use_at self.old.rows serial) self.old result self.new }
    {
        let mut row = self.row_kept(serial);
        row.done = true;
        match self.keep(row) {
            Committed::Done => Ok(()),
            Committed::Fault => Err(UsesErr::Fault),
            Committed::NoMemory => Err(UsesErr::NoMemory),
        }
    }

    /// The row of a serial.
    pub fn row(&self, serial: Serial) -> Option<&OrderUse>
        ensures row { option_copied result ≡ use_at self.now.rows serial }
        // At every moment no more was served than the order's amount, which is within its limit, whose tag is under the key.
        ensures uses { AreUses self.now.key self.now.rows }
    {
        self.table.rows().get(serial.0 as u128)
    }

    /// The keeper. Where it is open and tells, it has just the rows of these uses, and leaves them at a crash.
    pub fn keeper(&self) -> &K
        ensures keeper { result.now ≡ self.now.keeper }
        ensures kept { IsKept K.about self.now }
        ensures left { IsLeft K.about self.now }
    {
        &self.keeper
    }

    /// The keeper, without the uses.
    pub fn into_keeper(self) -> K
        ensures keeper { result ≡ self.keeper }
        ensures kept { IsKept K.about self }
        ensures left { IsLeft K.about self }
    {
        let Uses {
            alloc: _,
            node: _,
            cap: _,
            table: _,
            first: _,
            keeper,
        } = self;
        keeper
    }

    // How often the keeper failed.
    fn count(&self) -> u64
        ensures { result ≡ (K.about self.now.keeper).faults }
    {
        self.keeper.count()
    }

    // The row that a take puts.
    fn row_taken(&self, now: u64, wanted: &Wanted) -> Result<OrderUse, TakeErr>
        ensures case { result ≡ take_case self.now.node self.now.key self.now.cap self.now.rows now wanted.now }
        ensures under { IfOk result (IsUnderKey self.now.key) }
        ensures serial { IfOk result HasSerial }
    {
        let table = &self.table;
        take_case(self.node, table.key(), self.cap, table.rows(), now, wanted)
    }

    // The row of a serial that has one.
    fn row_kept(&self, serial: Serial) -> OrderUse
        requires { IsSome (use_at self.now.rows serial) }
        ensures row { use_at self.now.rows serial ≡ Some result }
        ensures under { IsUnderKey self.now.key result }
        ensures serial { HasSerial result }
    {
        *self.table.rows().get(serial.0 as u128).unwrap()
    }

    // Commits a row, and puts it where that is done.
    fn keep(&mut self, row: OrderUse) -> Committed
        requires under { IsUnderKey self.old.key row }
        requires serial { HasSerial row }
        ensures { Writes K.about row result self.old self.new }
    {
        keep_row(self.alloc, &mut self.keeper, &mut self.table, row)
    }

    // Notes a moment, at which the order that is due is then found at once.
    fn note_moment(&mut self, now: u64)
        ensures { self.new ≡ self.old }
    {
        self.table.advance(now);
    }
}

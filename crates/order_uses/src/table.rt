// The rows in memory, and an index of those that may be due.
ghost use Rattle.std.specs.Prelude.{◌≡◌, ◌≤◌, [], OnOk};
ghost use Rattle.rows.specs.Slots.{with_row};
ghost use Rattle.order_uses.specs.Due.{due_of};
ghost use Rattle.order_uses.specs.Opening.{HasSerial};
ghost use Rattle.order_uses.specs.Uses.{use_rank};

use crate::due::first_due;
use crate::index::DueIndex;
use crate::putting::put_over;
use crate::row::OrderUse;
use rows::BlockRows;
use sat_base::NoMemory;
use std::alloc::Global;
use std::marker::Model;

/// The rows by serial. Contracts see them, the key that their orders are read with, and the room for one row more.
pub(crate) struct UseTable {
    key: [u8; 32],
    rows: BlockRows<OrderUse>,
    index: DueIndex,
}

// By hand, so that it is taken apart here, and not anew wherever one is let go.
impl Drop for UseTable {
    fn drop(self) {
        let UseTable {
            key: _,
            rows: _,
            index: _,
        } = self;
    }
}

impl Model for UseTable {
    ghost use Rattle.std.specs.Prelude.{min};
    ghost use Rattle.order_uses.specs.Table.{TableView, IsTable};

    ghost Value = { TableView };

    ghost view = { λ t. record {
      key = t.key;
      rows = t.rows.rows;
      room = min t.rows.spare (min t.index.waiting.spare t.index.candidates.spare);
    } };

    ghost invariant = { λ t. IsTable t.key t.rows.rows t.index.moment t.index.waiting.rows t.index.candidates.rows };
}

impl UseTable {
    /// No rows.
    pub(crate) fn new(alloc: Global, key: [u8; 32]) -> Self
        ensures rows { result.rows ≡ [] }
        ensures key { result.key ≡ key }
    {
        UseTable {
            key,
            rows: BlockRows::new(alloc),
            index: DueIndex::new(alloc),
        }
    }

    /// The key.
    pub(crate) fn key(&self) -> &[u8; 32]
        ensures { result.now ≡ self.now.key }
    {
        &self.key
    }

    /// The rows.
    pub(crate) fn rows(&self) -> &BlockRows<OrderUse>
        ensures { result.now.rows ≡ self.now.rows }
    {
        &self.rows
    }

    /// Makes room for one row more.
    pub(crate) fn reserve(&mut self) -> Result<(), NoMemory>
        ensures rows { self.new.rows ≡ self.old.rows }
        ensures key { self.new.key ≡ self.old.key }
        ensures room { OnOk result (1 ≤ self.new.room) }
    {
        self.rows.reserve()?;
        self.index.reserve()?;
        Ok(())
    }

    /// Puts a row, in place of the one of its serial if there is one. It takes no memory.
    pub(crate) fn put(&mut self, row: OrderUse)
        requires room { 1 ≤ self.old.room }
        requires serial { HasSerial row }
        ensures rows { self.new.rows ≡ with_row use_rank self.old.rows row }
        ensures key { self.new.key ≡ self.old.key }
    {
        self.index.note(&self.key, &row);
        put_over(&mut self.rows, row);
        self.index.prune(&self.key, &self.rows);
    }

    /// Notes a moment, for which `due` is then found without a walk.
    pub(crate) fn advance(&mut self, now: u64)
        ensures rows { self.new.rows ≡ self.old.rows }
        ensures key { self.new.key ≡ self.old.key }
    {
        self.index.advance(now);
        self.index.prune(&self.key, &self.rows);
    }

    /// The order to offer at a moment: at the last one that was noted by the index, and at others by a walk over the rows.
    pub(crate) fn due(&self, now: u64) -> Option<[u8; 123]>
        ensures { result ≡ due_of self.now.key self.now.rows now }
    {
        if now == self.index.moment {
            return self.index.first_due(&self.key, &self.rows);
        }
        first_due(&self.key, now, &self.rows)
    }
}

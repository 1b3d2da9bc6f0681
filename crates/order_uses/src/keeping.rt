// A row is put into the keeper, and only then among the rows in memory.
ghost use Rattle.std.specs.Prelude.{◌≡◌};
ghost use Rattle.order_uses.specs.Opening.{HasSerial};
ghost use Rattle.order_uses.specs.View.{putting, rows_by};
ghost use Rattle.sat_base.specs.Keeper.{Commits};

use crate::row::OrderUse;
use crate::stored::put_change;
use crate::table::UseTable;
use sat_base::{Committed, Keeper};
use std::alloc::Global;

// Commits the row of a use.
fn commit_row<K: Keeper>(alloc: Global, keeper: &mut K, row: &OrderUse) -> Committed
    ensures { Commits (putting row.now) result (K.about keeper.old) (K.about keeper.new) }
{
    let Ok(changes) = put_change(alloc, row) else {
        return Committed::NoMemory;
    };
    keeper.commit(alloc, &changes)
}

/// Commits a row, and puts it where that is done. Room is made before.
pub(crate) fn keep_row<K: Keeper>(
    alloc: Global,
    keeper: &mut K,
    table: &mut UseTable,
    row: OrderUse,
) -> Committed
    requires { HasSerial row }
    ensures rows { table.new.rows ≡ rows_by result table.old.rows row }
    ensures key { table.new.key ≡ table.old.key }
    ensures commits { Commits (putting row) result (K.about keeper.old) (K.about keeper.new) }
{
    if table.reserve().is_err() {
        return Committed::NoMemory;
    }
    match commit_row(alloc, keeper, &row) {
        Committed::Done => {
            table.put(row);
            Committed::Done
        }
        Committed::Fault => Committed::Fault,
        Committed::NoMemory => Committed::NoMemory,
    }
}

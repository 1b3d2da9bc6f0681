// The rows of a keeper, read as uses.
ghost use Rattle.std.specs.Prelude.{◌≡◌, ◌≤◌, IfOk, IfErr};
ghost use Rattle.sat_base.specs.Rows.{AreInOrder};
ghost use Rattle.order_uses.specs.Opening.{AreRowsOf, Names, NamesFirst};
ghost use Rattle.order_uses.specs.View.{LoadsUses, Refuses};

use crate::opening::UsesErr;
use crate::stored::read_use;
use crate::table::UseTable;
use sat_base::{Keeper, Loaded, Row};
use std::alloc::Global;

// A row that is none of a use is named.
fn bad_row(alloc: Global, row: &Row) -> UsesErr
    ensures { Names row.now result }
{
    match row.id.copy(alloc) {
        Ok(id) => UsesErr::BadRow { kind: row.kind, id },
        Err(_) => UsesErr::NoMemory,
    }
}

fn read_rows(alloc: Global, key: &[u8; 32], loaded: &[Row]) -> Result<UseTable, UsesErr>
    requires { AreInOrder loaded.now }
    ensures ok { IfOk result (λ table. AreRowsOf key.now loaded.now table.rows) }
    ensures key { IfOk result (λ table. table.key ≡ key.now) }
    ensures bad { IfErr result (NamesFirst key.now loaded.now) }
{
    let mut table = UseTable::new(alloc, *key);
    for row in loaded {
        let Some(one) = read_use(key, row) else {
            return Err(bad_row(alloc, row));
        };
        if table.reserve().is_err() {
            return Err(UsesErr::NoMemory);
        }
        table.put(one);
    }
    Ok(table)
}

/// Reads all rows of a keeper as uses.
pub(crate) fn load_uses<K: Keeper>(
    alloc: Global,
    keeper: &mut K,
    key: &[u8; 32],
) -> Result<UseTable, UsesErr>
    ensures ok { IfOk result (λ table. LoadsUses K.about
        key.now keeper.old keeper.new table.rows) }
    ensures key { IfOk result (λ table. table.key ≡ key.now) }
    ensures bad { IfErr result (Refuses K.about
        key.now keeper.old keeper.new) }
{
    match keeper.load(alloc) {
        Loaded::Rows(loaded) => read_rows(alloc, key, loaded.as_slice()),
        Loaded::Fault => Err(UsesErr::Fault),
        Loaded::NoMemory => Err(UsesErr::NoMemory),
    }
}

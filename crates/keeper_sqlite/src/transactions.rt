// The transactions of a keeper: making the table, reading all rows, and writing changes.
//
// Each is a `Transaction` of the crate and not BEGIN and COMMIT as texts, since its end leaves the
// connection outside a transaction whatever happened, also on a store that fails.
ghost use Rattle.std.specs.Prelude.{◌≡◌, List, map, false, IsTrue, IfOk, OnOk};
ghost use Rattle.std.specs.FinMap.{empty};
ghost use Rattle.sqlite.specs.State.{HasCleanDisk};
ghost use Rattle.sqlite.specs.Held.{state};
ghost use Rattle.sat_base.specs.declared.rows.Row.{Row};
ghost use Rattle.sat_base.specs.Rows.{Rows, entry, changed, AreInOrder, AreThe};
ghost use Rattle.keeper_sqlite.specs.Table.{no_schema, record_schema};
ghost use Rattle.keeper_sqlite.specs.Opened.{IsShownOf};
ghost use Rattle.keeper_sqlite.specs.Records.{Holds, entry_shown};
ghost use Rattle.keeper_sqlite.specs.Transitions.{Keeps, Commits};

use crate::statements::{apply, create_table, probe, select};
use sat_base::Change;
use sqlite::{Alter, Connection, Error, ErrorCode};

/// Makes the table if none of its name is there.
pub(crate) fn create<S: Alter>(conn: &mut Connection<S>) -> Result<(), Error>
    requires { conn.old.in_transaction ≡ false }
    ensures outside { conn.new.in_transaction ≡ false }
    ensures commits { Commits (state S.Store conn.old) (state S.Store conn.new) (λ rows. rows) result }
    ensures made { HasCleanDisk (state S.Store conn.new)
        → OnOk result ((state S.Store conn.old).committed.schema ≡ no_schema → Holds (state S.Store conn.new).committed empty) }
    ensures open { HasCleanDisk (state S.Store conn.new) → OnOk result (IsTrue (state S.Store conn.new).is_open) }
{
    // outside a transaction nothing waits to be committed
    let _settled = conn.is_autocommit();
    let mut tx = conn.transaction();
    create_table(&mut tx)?;
    tx.commit()
}

/// All rows. They are read in a transaction that is rolled back, so that no crash leaves anything new.
pub(crate) fn read<S: Alter>(conn: &mut Connection<S>) -> Result<Vec<sqlite::Row>, Error>
    requires { conn.old.in_transaction ≡ false }
    ensures outside { conn.new.in_transaction ≡ false }
    ensures kept { Keeps (state S.Store conn.old) (state S.Store conn.new) }
    ensures rows { HasCleanDisk (state S.Store conn.new) → IsTrue (state S.Store conn.new).is_open
        → IfOk result (λ rows. (list : List Row) → AreInOrder list → map entry list ≡ map entry_shown rows.items
        → (m : Rows) → Holds (state S.Store conn.old).committed m → AreThe m list) }

    // Whatever the kinds, these are the rows of the table, and each kind in it shows.
    ensures shown { HasCleanDisk (state S.Store conn.new) → IsTrue (state S.Store conn.new).is_open
        → (state S.Store conn.old).committed.schema ≡ record_schema
        → IfOk result (λ rows. IsShownOf (state S.Store conn.old).committed.trees rows.items) }
{
    let _settled = conn.is_autocommit();
    let mut tx = conn.transaction();
    let rows = select(&mut tx)?;
    tx.rollback();
    Ok(rows)
}

/// Whether a failure has shut the file: then nothing can be read, either. What is read is rolled back.
pub(crate) fn is_shut<S: Alter>(conn: &mut Connection<S>) -> bool
    requires { conn.old.in_transaction ≡ false }
    ensures outside { conn.new.in_transaction ≡ false }
    ensures kept { Keeps (state S.Store conn.old) (state S.Store conn.new) }
{
    let _settled = conn.is_autocommit();
    let mut tx = conn.transaction();
    let found = probe(&mut tx);
    tx.rollback();
    !matches!(
        found,
        Ok(_) | Err(Error::SqliteFailure(ErrorCode::OutOfMemory))
    )
}

/// Makes the changes in order, all or none.
pub(crate) fn write<S: Alter>(conn: &mut Connection<S>, changes: &[Change]) -> Result<(), Error>
    requires { conn.old.in_transaction ≡ false }
    ensures outside { conn.new.in_transaction ≡ false }
    ensures commits { Commits (state S.Store conn.old) (state S.Store conn.new) (changed changes.now) result }
    ensures open { HasCleanDisk (state S.Store conn.new) → OnOk result (IsTrue (state S.Store conn.new).is_open) }
{
    let _settled = conn.is_autocommit();
    // with no statement before it, a commit doesn't show that the store is open; this one changes nothing
    if changes.is_empty() {
        return create(conn);
    }
    let mut tx = conn.transaction();
    'changes: for change in changes {
        apply(&mut tx, change)?;
    }
    tx.commit()
}

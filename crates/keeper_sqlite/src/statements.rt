// The statements over the one table. Each stands in a function of its own, which calls the database once.
ghost use Rattle.std.specs.Prelude.{◌≡◌, [], IsTrue, IfOk, OnOk};
ghost use Rattle.std.specs.FinMap.{empty};
ghost use Rattle.sqlite.specs.State.{HasCleanDisk, Shown};
ghost use Rattle.sqlite.specs.Held.{state};
ghost use Rattle.sat_base.specs.declared.rows.Change.TheVariants as change;
ghost use Rattle.sat_base.specs.Rows.{change_of};
ghost use Rattle.keeper_sqlite.specs.Table.{select_text, no_schema};
ghost use Rattle.keeper_sqlite.specs.Records.{Holds};
ghost use Rattle.keeper_sqlite.specs.Transitions.{Keeps, Makes};

use sat_base::{Change, Row};
use sqlite::{Alter, Error, Transaction, params};

const CREATE: &str =
    "CREATE TABLE IF NOT EXISTS record(kind INTEGER NOT NULL, id BLOB NOT NULL, body BLOB NOT NULL, PRIMARY KEY(kind, id)) STRICT";

const SELECT: &str = "SELECT kind, id, body FROM record ORDER BY kind, id";

const PROBE: &str = "SELECT kind FROM record WHERE kind = ?1 AND id = ?2";

// OR REPLACE takes the row of the key out and puts the new one behind all others, which is the plainest
// meaning to prove. ON CONFLICT DO UPDATE takes as long.
const UPSERT: &str = "INSERT OR REPLACE INTO record(kind, id, body) VALUES(?1, ?2, ?3)";

const DELETE: &str = "DELETE FROM record WHERE kind = ?1 AND id = ?2";

/// Makes the table if none of its name is there.
pub(crate) fn create_table<S: Alter>(tx: &mut Transaction<'_, S>) -> Result<usize, Error>
    ensures same { tx.new.conn.ghost_name ≡ tx.old.conn.ghost_name }
    ensures kept { Keeps (state S.Store tx.old.conn.now) (state S.Store tx.new.conn.now) }
    ensures makes { HasCleanDisk (state S.Store tx.new.conn.now)
        → OnOk result (Makes (state S.Store tx.old.conn.now) (state S.Store tx.new.conn.now) (λ rows. rows)) }
    ensures made { HasCleanDisk (state S.Store tx.new.conn.now)
        → OnOk result ((state S.Store tx.old.conn.now).now.schema ≡ no_schema → Holds (state S.Store tx.new.conn.now).now empty) }
{
    tx.execute(CREATE, &[])
}

/// All rows of the table, in the order of their keys.
pub(crate) fn select<S: Alter>(tx: &mut Transaction<'_, S>) -> Result<Vec<sqlite::Row>, Error>
    requires { IsTrue tx.old.conn.now.in_transaction }
    ensures same { tx.new.conn.ghost_name ≡ tx.old.conn.ghost_name }
    ensures kept { Keeps (state S.Store tx.old.conn.now) (state S.Store tx.new.conn.now) }
    ensures shown { HasCleanDisk (state S.Store tx.new.conn.now)
        → IfOk result (λ rows. Shown select_text [] (state S.Store tx.old.conn.now) (state S.Store tx.new.conn.now) rows.items) }
{
    tx.query_all(SELECT, &[])
}

/// Looks for a row that no store has, by its key.
pub(crate) fn probe<S: Alter>(tx: &mut Transaction<'_, S>) -> Result<Vec<sqlite::Row>, Error>
    requires { IsTrue tx.old.conn.now.in_transaction }
    ensures same { tx.new.conn.ghost_name ≡ tx.old.conn.ghost_name }
    ensures kept { Keeps (state S.Store tx.old.conn.now) (state S.Store tx.new.conn.now) }
{
    tx.query_all(PROBE, params![0, b"".as_slice()])
}

/// Puts the row in place of the one with its key, if there is one.
pub(crate) fn upsert<S: Alter>(tx: &mut Transaction<'_, S>, row: &Row) -> Result<usize, Error>
    ensures same { tx.new.conn.ghost_name ≡ tx.old.conn.ghost_name }
    ensures kept { Keeps (state S.Store tx.old.conn.now) (state S.Store tx.new.conn.now) }
    ensures makes { HasCleanDisk (state S.Store tx.new.conn.now)
        → OnOk result (Makes (state S.Store tx.old.conn.now) (state S.Store tx.new.conn.now) (change_of (change.Put row.now))) }
{
    // by value, so that the prover knows that it is a byte
    let kind = row.kind;
    tx.execute(
        UPSERT,
        params![u32::from(kind), row.id.as_slice(), row.body.as_slice()],
    )
}

/// Takes the row of this key out, if there is one.
pub(crate) fn delete<S: Alter>(
    tx: &mut Transaction<'_, S>,
    kind: u8,
    id: &[u8],
) -> Result<usize, Error>
    ensures same { tx.new.conn.ghost_name ≡ tx.old.conn.ghost_name }
    ensures kept { Keeps (state S.Store tx.old.conn.now) (state S.Store tx.new.conn.now) }
    ensures makes { HasCleanDisk (state S.Store tx.new.conn.now)
        → OnOk result (Makes (state S.Store tx.old.conn.now) (state S.Store tx.new.conn.now) (change_of (change.Remove kind id.now))) }
{
    tx.execute(DELETE, params![u32::from(kind), id])
}

/// Makes one change.
pub(crate) fn apply<S: Alter>(tx: &mut Transaction<'_, S>, change: &Change) -> Result<usize, Error>
    ensures same { tx.new.conn.ghost_name ≡ tx.old.conn.ghost_name }
    ensures kept { Keeps (state S.Store tx.old.conn.now) (state S.Store tx.new.conn.now) }
    ensures makes { HasCleanDisk (state S.Store tx.new.conn.now)
        → OnOk result (Makes (state S.Store tx.old.conn.now) (state S.Store tx.new.conn.now) (change_of change.now)) }
{
    match change {
        Change::Put(row) => upsert(tx, row),
        Change::Remove { kind, id } => delete(tx, *kind, id.as_slice()),
    }
}

// The keeper over a connection.
ghost use Rattle.std.specs.Prelude.{◌≡◌, ◌-◌, ◌^◌, false, IsTrue, IfOk, refl};
ghost use Rattle.std.specs.FinMap.{empty};
ghost use Rattle.sqlite.specs.Tree.{Trees};
ghost use Rattle.sqlite.specs.State.{HasCleanDisk};
ghost use Rattle.sqlite.specs.Held.{state};
ghost use Rattle.sqlite.specs.Files.{AreFoundIn};
ghost use Rattle.sqlite_wal.specs.Recovery.{Image};
ghost use Rattle.sat_base.specs.Outside.{Counts, counted};
ghost use Rattle.sat_base.specs.Rows.{Rows, AreInOrder, AreThe};
ghost use Rattle.sat_base.specs.Keeper.{IfRows, failed_load};
ghost use Rattle.keeper_sqlite.specs.Table.{no_schema, record_schema};
ghost use Rattle.keeper_sqlite.specs.Records.{Holds, rows_in};
ghost use Rattle.keeper_sqlite.specs.Opened.{HaveByteKinds, IsListOf, IsRefused};
ghost use Rattle.keeper_sqlite.specs.Crash.{rows_of_commit};

use crate::loading::rows_of;
use crate::refusal::{Refused, refusal};
use crate::transactions::{create, is_shut, read, write};
use sat_base::{Change, Committed, Items, Keeper, Loaded};
use sqlite::{Alter, Connection};
use std::alloc::Global;

/// Rows in the table `record` of a SQLite database, which has no other table.
///
/// It tells its rows where the schema is that table alone and each kind is a byte: `of` finds that so in an
/// empty database and in files that had it, and each call keeps it. Of a database with more in it, or with
/// other kinds, it tells nothing, and a load that meets such a row fails.
pub struct KeeperSqlite<S: Alter> {
    conn: Connection<S>,
    faults: u64,
    ghost outside: { conn.in_transaction ≡ false },
}

impl<S: Alter + Drop> Drop for KeeperSqlite<S> {
    fn drop(self) {
        let KeeperSqlite { conn: _, faults: _ } = self;
    }
}

impl<S: Alter + Drop> KeeperSqlite<S> {
    ghost use Rattle.keeper_sqlite.specs.Shown.{state_of};

    /// The keeper over a connection, in whose database it makes the table if none of its name is there.
    /// No clause says when it refuses. After a refusal the connection is dropped.
    pub fn of(mut conn: Connection<S>) -> Result<KeeperSqlite<S>, Refused>
        requires { conn.in_transaction ≡ false }
        ensures made { IfOk result (λ k. HasCleanDisk (state_of k)
            → (state S.Store conn).committed.schema ≡ no_schema → Holds (state_of k).committed empty) }
        ensures kept { IfOk result (λ k. HasCleanDisk (state_of k) → IsTrue (state_of k).is_open
            → (m : Rows) → Holds (state S.Store conn).committed m → Holds (state_of k).committed m) }
        ensures found { IfOk result (λ k. HasCleanDisk (state_of k) → IsTrue (state_of k).is_open
            → (image : Image) → AreFoundIn image (state S.Store conn).committed.trees
            → (state S.Store conn).committed.schema ≡ record_schema
            → HaveByteKinds ((state S.Store conn).committed.trees 0)
            → Holds (state_of k).committed (rows_in (state S.Store conn).committed.trees)) }
    {
        // an open connection's database obeys its schema
        let _schema = conn.schema();
        let mut faults = 0;
        match create(&mut conn) {
            Ok(()) => Ok(KeeperSqlite { conn, faults }),
            Err(error) => Err(refusal(error, &mut faults)),
        }
    }
}

impl<S: Alter> KeeperSqlite<S> {
    ghost use Rattle.keeper_sqlite.specs.Shown.{connection_of};

    /// The connection, so that it can be closed: a connection to a file that is dropped leaves its log
    /// beside the file.
    pub fn into_connection(self) -> Connection<S>
        ensures same { result ≡ connection_of self }
        ensures outside { result.in_transaction ≡ false }
    {
        let KeeperSqlite { conn, faults: _ } = self;
        conn
    }
}

impl<S: Alter + Drop> Keeper for KeeperSqlite<S> {
    ghost use Rattle.keeper_sqlite.specs.Shown.{connection_of, state_of, faults_of, rows_kept, StandsOpen, TellsRows, MayLeave};

    ghost about = { λ k. record {
      faults = faults_of k;
      is_clean = HasCleanDisk (state_of k);
      is_open = StandsOpen k;
      tells = TellsRows k;
      rows = rows_kept k;
      leaves = MayLeave k;
    } };

    ghost leaves_no_other = { λ k m up told h. rows_of_commit _ _ m h.2 (S.Store.settled (connection_of k).store h.0 up.1 h.1) };

    ghost leaves_its_rows = { λ k up told. (_, S.Store.stays (connection_of k).store up.1, refl) };

    /// Reads all rows. A row whose kind is no byte, or that doesn't come after the one before it, fails the load
    /// and is counted, also where the keeper doesn't tell what it keeps.
    fn load(&mut self, alloc: Global) -> Loaded
        ensures ordered { IfRows result AreInOrder }
        ensures clean { HasCleanDisk (state_of self.new) → HasCleanDisk (state_of self.old) }
        ensures opened { StandsOpen self.new → StandsOpen self.old }
        ensures told { StandsOpen self.new → TellsRows self.old → TellsRows self.new }
        ensures kept { StandsOpen self.new → TellsRows self.old → rows_kept self.new ≡ rows_kept self.old }
        ensures rows { StandsOpen self.new → TellsRows self.old → IfRows result (AreThe (rows_kept self.old)) }
        ensures crash { HasCleanDisk (state_of self.new) → (m : Rows) → MayLeave self.new m → MayLeave self.old m }
        ensures faults { Counts (failed_load result) (faults_of self.old) (faults_of self.new) }
        ensures steady { failed_load result ≡ false → faults_of self.new ≡ faults_of self.old }
        ensures last { faults_of self.old ≡ 2 ^ 64 - 1 → faults_of self.new ≡ 2 ^ 64 - 1 }

        // Beside what every keeper promises, of a database with the one table alone, told or not: what is loaded are
        // its rows, each of which has a byte as its kind. So where another kind stands in it, nothing is loaded.
        ensures listed { StandsOpen self.new → (state_of self.old).committed.schema ≡ record_schema
            → IfRows result (IsListOf (state_of self.old).committed.trees) }
        ensures refused { StandsOpen self.new → (state_of self.old).committed.schema ≡ record_schema
            → ¬ HaveByteKinds ((state_of self.old).committed.trees 0) → IsRefused result (faults_of self.old) (faults_of self.new) }
        ensures counted { faults_of self.new ≡ counted (failed_load result) (faults_of self.old) }
    {
        let found = match read(&mut self.conn) {
            Ok(rows) => rows_of(alloc, rows),
            Err(error) => Err(error),
        };
        match found {
            Ok(Some(rows)) => Loaded::Rows(Items::of(rows)),
            Ok(None) => {
                self.faults = self.faults.saturating_add(1);
                Loaded::Fault
            }
            Err(error) => match refusal(error, &mut self.faults) {
                Refused::Fault => Loaded::Fault,
                Refused::NoMemory => Loaded::NoMemory,
            },
        }
    }

    fn commit(&mut self, _: Global, changes: &[Change]) -> Committed {
        match write(&mut self.conn, changes) {
            Ok(()) => Committed::Done,
            Err(error) => match refusal(error, &mut self.faults) {
                Refused::Fault => Committed::Fault,
                Refused::NoMemory => Committed::NoMemory,
            },
        }
    }

    fn is_shut(&mut self) -> bool {
        is_shut(&mut self.conn)
    }

    fn count(&self) -> u64 {
        self.faults
    }
}

// Files in memory, each of which answers so many calls.
ghost use Rattle.std.specs.Prelude.{◌≡◌, false, IfOk, IfSome};

use keeper_sqlite::KeeperSqlite;
use sat_base::{Change, Committed, Items, Keeper, Loaded, Row};
use sqlite::{Alter, Connection, FileStore, Files, Options};
use sqlite_disk::{Crash, Disk, Fuse, Memory};
use std::alloc::Global;
use trial_lines::LineErr;

/// A disk that fails from some call on.
pub type Fused = Fuse<Memory>;

/// Which disk fails.
#[derive(Clone, Copy, Debug, PartialEq, Eq)]
pub enum Stopping {
    Log,
    File,
}

/// Empty files, one of which answers so many calls.
pub fn with_calls(alloc: Global, stopping: Stopping, calls: u64) -> Files<Fused> {
    let (log, db) = calls_of(stopping, calls);
    Files {
        log: Fuse::new(Memory::new(alloc), log),
        db: Fuse::new(Memory::new(alloc), db),
    }
}

// How many calls of the log and of the file are answered.
fn calls_of(stopping: Stopping, calls: u64) -> (u64, u64) {
    match stopping {
        Stopping::Log => (calls, u64::MAX),
        Stopping::File => (u64::MAX, calls),
    }
}

// Few pages are kept in memory: those are made anew at each opening.
fn options() -> Options {
    Options {
        cache_pages: 64,
        ..Options::new(1)
    }
}

// A connection to files, or what is left of them.
fn connect<D: Disk + Drop>(
    alloc: Global,
    files: Files<D>,
) -> Result<Connection<FileStore<D>>, Option<Files<D>>>
    ensures { IfOk result (λ conn. conn.in_transaction ≡ false) }
{
    if !files.may_be_used() {
        return Err(None);
    }
    match Connection::open_files(alloc, files, options()) {
        Ok(conn) => Ok(conn),
        Err((_, left)) => Err(Some(left.into_files())),
    }
}

/// What is done with a connection, which is given back unless a keeper is refused. The prover looks into the type of a
/// connection to files once, in `over_files`, and not for each work.
pub trait Work: Drop {
    type Output: Drop;

    fn over<S: Alter + Drop>(
        self,
        alloc: Global,
        conn: Connection<S>,
    ) -> Result<Option<(Connection<S>, Self::Output)>, LineErr>
        requires { conn.in_transaction ≡ false };
}

/// What came of work over files, and what is left of these.
pub enum Worked<D: Disk, T> {
    Done(Files<D>, T),
    /// No connection was opened.
    Unopened(Files<D>),
    /// A keeper was refused, or the files may not be used.
    Lost,
}

/// Works over files, and lets go of them without closing the database.
pub fn over_files<D: Disk + Drop, W: Work>(
    alloc: Global,
    files: Files<D>,
    work: W,
) -> Result<Worked<D, W::Output>, LineErr> {
    let conn = match connect(alloc, files) {
        Ok(conn) => conn,
        Err(Some(files)) => return Ok(Worked::Unopened(files)),
        Err(None) => return Ok(Worked::Lost),
    };
    match work.over(alloc, conn)? {
        Some((conn, output)) => Ok(Worked::Done(conn.into_store().close(), output)),
        None => Ok(Worked::Lost),
    }
}

// Puts rows into a new database.
fn put<S: Alter + Drop>(
    alloc: Global,
    conn: Connection<S>,
    changes: &[Change],
) -> Option<Connection<S>>
    requires { conn.in_transaction ≡ false }
{
    let Ok(mut keeper) = KeeperSqlite::of(conn) else {
        return None;
    };
    match keeper.commit(alloc, changes) {
        Committed::Done => Some(keeper.into_connection()),
        Committed::Fault | Committed::NoMemory => None,
    }
}

/// The bytes of closed files.
#[derive(Drop)]
pub struct Filled {
    log: Vec<u8>,
    db: Vec<u8>,
}

impl Filled {
    /// Those of new files with these rows, unless they can't be made.
    pub fn of(alloc: Global, changes: &[Change]) -> Option<Filled> {
        let files = with_calls(alloc, Stopping::Log, u64::MAX);
        let conn = put(alloc, connect(alloc, files).ok()?, changes)?;
        let Files { log, db } = conn.close_files().ok()?;
        Some(Filled {
            log: Vec::from_slice(alloc, log.inner().bytes()).ok()?,
            db: Vec::from_slice(alloc, db.inner().bytes()).ok()?,
        })
    }

    /// Files with these bytes, one of which answers so many calls.
    pub fn with_calls(
        &self,
        alloc: Global,
        stopping: Stopping,
        calls: u64,
    ) -> Option<Files<Fused>> {
        let (log, db) = calls_of(stopping, calls);
        Some(Files {
            log: disk_of(alloc, &self.log, log)?,
            db: disk_of(alloc, &self.db, db)?,
        })
    }
}

/// A disk with these bytes, that answers so many calls.
pub fn disk_of(alloc: Global, bytes: &[u8], calls: u64) -> Option<Fused> {
    let mut memory = Memory::new(alloc);
    memory.write_at(0, bytes).ok()?;
    memory.sync().ok()?;
    Some(Fuse::new(memory, calls))
}

/// The machine comes back, with disks that don't fail.
pub fn come_back(files: Files<Fused>) -> Files<Fused> {
    let mut files = files;
    files.log.crash();
    files.db.crash();
    files
}

/// The rows of a connection's database, and the connection.
pub fn rows_of<S: Alter + Drop>(
    alloc: Global,
    conn: Connection<S>,
) -> Option<(Connection<S>, Items<Row>)>
    requires { conn.in_transaction ≡ false }
    ensures { IfSome result (λ r. r.0.in_transaction ≡ false) }
{
    let Ok(mut keeper) = KeeperSqlite::of(conn) else {
        return None;
    };
    match keeper.load(alloc) {
        Loaded::Rows(rows) => Some((keeper.into_connection(), rows)),
        Loaded::Fault | Loaded::NoMemory => None,
    }
}

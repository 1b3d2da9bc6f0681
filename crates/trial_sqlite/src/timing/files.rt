// Keepers over files, and what is done with them.
use super::made::{puts, row, sum_of};
use anyhow::{Result, bail};
use keeper_sqlite::KeeperSqlite;
use sat_base::{Change, Committed, Keeper, Loaded, Row};
use sqlite::{Alter, Connection, FileStore};
use sqlite_disk::Disk;
use std::alloc::Global;
use std::time::Instant;

/// The rows of the run without words, and of a commit of it.
const ROWS: u64 = 240;

const BATCH: u64 = 60;

/// A keeper over any store.
pub(crate) fn keeper_of<S: Alter + Drop>(conn: Connection<S>) -> Result<KeeperSqlite<S>> {
    if !conn.is_autocommit() {
        bail!("a transaction is open");
    }
    match KeeperSqlite::of(conn) {
        Ok(keeper) => Ok(keeper),
        Err(_) => bail!("the table can't be made"),
    }
}

pub(crate) fn commit<K: Keeper>(alloc: Global, keeper: &mut K, changes: &[Change]) -> Result<()> {
    match keeper.commit(alloc, changes) {
        Committed::Done => Ok(()),
        Committed::Fault => bail!("a commit failed"),
        Committed::NoMemory => bail!("out of memory"),
    }
}

pub(crate) fn load<K: Keeper>(alloc: Global, keeper: &mut K) -> Result<Vec<Row>> {
    match keeper.load(alloc) {
        Loaded::Rows(rows) => Ok(rows.into_vec()),
        Loaded::Fault => bail!("a load failed"),
        Loaded::NoMemory => bail!("out of memory"),
    }
}

/// A connection that is given back, and what came of the work by it.
pub(crate) type Done<S, T> = (Connection<S>, Result<T>);

/// What is done with an open file. The prover looks into the type of a file of the system once, in `use_file`, and not for each
/// work.
pub(crate) trait Work: Drop {
    type Output: Drop;

    fn over<S: Alter + Drop>(
        self,
        rt: &HostRuntime,
        conn: Connection<S>,
    ) -> Result<Done<S, Self::Output>>;
}

/// What came of the work over a file, and of closing it.
#[derive(Drop)]
pub(crate) struct Used<T> {
    pub value: Result<T>,
    pub closed: Result<()>,
}

// Works over an open file and closes it.
fn use_open<D: Disk + Drop, W: Work>(
    rt: &HostRuntime,
    conn: Connection<FileStore<D>>,
    work: W,
) -> Result<Used<W::Output>> {
    let (conn, value) = work.over(rt, conn)?;
    let closed = match conn.close() {
        Ok(()) => Ok(()),
        Err(error) => Err(error.into()),
    };
    Ok(Used { value, closed })
}

/// Opens a file, prints how long that took where it has a name, works over it and closes it.
pub(crate) fn use_file<W: Work>(
    rt: &HostRuntime,
    path: &str,
    opening: Option<&str>,
    work: W,
) -> Result<Used<W::Output>> {
    let start = Instant::now(rt)?;
    let conn = Connection::open(rt, path)?;
    use_open(
        rt,
        conn,
        Opened {
            start,
            opening,
            work,
        },
    )
}

// Work whose file was just opened.
#[derive(Drop)]
struct Opened<'a, W> {
    start: Instant,
    opening: Option<&'a str>,
    work: W,
}

impl<W: Work> Work for Opened<'_, W> {
    type Output = W::Output;

    fn over<S: Alter + Drop>(
        self,
        rt: &HostRuntime,
        conn: Connection<S>,
    ) -> Result<Done<S, W::Output>> {
        if let Some(what) = self.opening {
            report(rt, what, self.start)?;
        }
        self.work.over(rt, conn)
    }
}

/// What came of the work over a file, which is closed.
pub(crate) fn over_file<W: Work>(rt: &HostRuntime, path: &str, work: W) -> Result<W::Output> {
    let used = use_file(rt, path, None, work)?;
    used.closed?;
    used.value
}

/// Prints the nanoseconds since a start.
pub(crate) fn report(rt: &HostRuntime, what: &str, start: Instant) -> Result<()> {
    let spent = start.elapsed(rt)?.as_nanos();
    println!(rt; "{what} {spent}")?;
    Ok(())
}

/// Rows, a second body for some, and removals for others.
pub(crate) fn play<K: Keeper>(alloc: Global, keeper: &mut K) -> Result<()> {
    for batch in 0..ROWS / BATCH {
        commit(alloc, keeper, &puts(alloc, batch * BATCH, BATCH, 1)?)?;
    }
    let mut changes = puts(alloc, 10, 20, 2)?;
    for number in 100..120 {
        let gone = row(alloc, number, 1)?;
        changes.push(Change::Remove {
            kind: gone.kind,
            id: gone.id,
        })?;
    }
    commit(alloc, keeper, &changes)
}

// All rows of a file.
#[derive(Drop)]
struct Rows;

impl Work for Rows {
    type Output = Vec<Row>;

    fn over<S: Alter + Drop>(
        self,
        rt: &HostRuntime,
        conn: Connection<S>,
    ) -> Result<Done<S, Vec<Row>>> {
        let mut keeper = keeper_of(conn)?;
        let rows = load(rt.alloc(), &mut keeper);
        Ok((keeper.into_connection(), rows))
    }
}

/// The rows of a file.
pub(crate) fn rows_of(rt: &HostRuntime, path: &str) -> Result<Vec<Row>> {
    over_file(rt, path, Rows)
}

/// Nothing.
#[derive(Drop)]
pub(crate) struct Nothing;

impl Work for Nothing {
    type Output = ();

    fn over<S: Alter + Drop>(self, _rt: &HostRuntime, conn: Connection<S>) -> Result<Done<S, ()>> {
        Ok((conn, Ok(())))
    }
}

// The rows that are played, and whether a second handle is refused meanwhile.
#[derive(Drop)]
struct Played<'a> {
    path: &'a str,
}

fn sum_played<K: Keeper>(alloc: Global, keeper: &mut K) -> Result<u64> {
    play(alloc, keeper)?;
    Ok(sum_of(&load(alloc, keeper)?))
}

impl Work for Played<'_> {
    type Output = (u64, bool);

    fn over<S: Alter + Drop>(
        self,
        rt: &HostRuntime,
        conn: Connection<S>,
    ) -> Result<Done<S, (u64, bool)>> {
        let mut keeper = keeper_of(conn)?;
        let sum = sum_played(rt.alloc(), &mut keeper);
        let refused = use_file(rt, self.path, None, Nothing).is_err();
        Ok((keeper.into_connection(), sum.map(|sum| (sum, refused))))
    }
}

/// The check sum of what was committed to a file, and whether a second handle was refused meanwhile.
pub(crate) fn write_file(rt: &HostRuntime, path: &str) -> Result<(u64, bool)> {
    over_file(rt, path, Played { path })
}

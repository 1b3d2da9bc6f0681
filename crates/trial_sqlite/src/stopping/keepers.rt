// A keeper alone: over a database of another making, over a file that is none, and over a new file whose disk stops.
ghost use Rattle.std.specs.Prelude.{◌≡◌, false};

use super::files::{
    Fused, Stopping, Work, Worked, come_back, disk_of, over_files, rows_of, with_calls,
};
use keeper_sqlite::KeeperSqlite;
use sat_base::{Change, Committed, Items, Keeper, Loaded, Row};
use sqlite::{Alter, Connection, Error, Files};
use std::alloc::Global;
use trial_lines::{LineErr, keeper_of};

/// What a keeper answered to commits, up to the first that isn't done.
#[derive(Clone, Copy, Debug, PartialEq, Eq)]
pub struct Answers {
    /// So many commits were done.
    pub done: usize,
    /// What the last commit was answered.
    pub last: Committed,
    /// Its count of faults.
    pub faults: u64,
}

fn commit_all<K: Keeper>(alloc: Global, keeper: &mut K, commits: &[Vec<Change>]) -> Answers {
    let mut done = 0usize;
    let mut last = Committed::Done;
    for changes in commits {
        last = keeper.commit(alloc, changes);
        if last != Committed::Done {
            break;
        }
        done = done.saturating_add(1);
    }
    Answers {
        done,
        last,
        faults: keeper.count(),
    }
}

/// What is found in a database of another making.
#[derive(Drop)]
pub struct Found {
    pub answers: Answers,
    pub loaded: Loaded,
    /// The sum of the numbers in its table, where it has any.
    pub sum: Option<i64>,
}

fn sum_of<S: Alter>(conn: &mut Connection<S>) -> Result<i64, Error> {
    conn.query_row("SELECT sum(number) FROM record", &[])?
        .get(0)
}

// A keeper over a database that the text made is asked these commits and a load.
#[derive(Drop)]
struct Made<'a> {
    text: &'a str,
    commits: &'a [Vec<Change>],
}

impl Work for Made<'_> {
    type Output = Found;

    fn over<S: Alter + Drop>(
        self,
        alloc: Global,
        mut conn: Connection<S>,
    ) -> Result<Option<(Connection<S>, Found)>, LineErr> {
        let made = conn.execute_batch(self.text).is_ok();
        if !made || !conn.is_autocommit() {
            return Err(LineErr::Bad);
        }
        let Ok(mut keeper) = KeeperSqlite::of(conn) else {
            return Ok(None);
        };
        let answers = commit_all(alloc, &mut keeper, self.commits);
        let loaded = keeper.load(alloc);
        let mut conn = keeper.into_connection();
        let sum = sum_of(&mut conn).ok();
        let found = Found {
            answers,
            loaded,
            sum,
        };
        Ok(Some((conn, found)))
    }
}

/// What a keeper over a database that the text made finds, unless it is refused.
pub fn found_in(
    alloc: Global,
    text: &str,
    commits: &[Vec<Change>],
) -> Result<Option<Found>, LineErr> {
    let files = with_calls(alloc, Stopping::Log, u64::MAX);
    match over_files(alloc, files, Made { text, commits })? {
        Worked::Done(_, found) => Ok(Some(found)),
        Worked::Unopened(_) => Ok(None),
        Worked::Lost => Ok(None),
    }
}

// Nothing is done.
#[derive(Drop)]
struct Nothing;

impl Work for Nothing {
    type Output = ();

    fn over<S: Alter + Drop>(
        self,
        _alloc: Global,
        conn: Connection<S>,
    ) -> Result<Option<(Connection<S>, ())>, LineErr> {
        Ok(Some((conn, ())))
    }
}

/// Whether a file with these bytes isn't opened, and has them then.
pub fn is_refused_and_kept(alloc: Global, bytes: &[u8]) -> Result<bool, LineErr> {
    let db = disk_of(alloc, bytes, u64::MAX).ok_or(LineErr::NoMemory)?;
    let log = disk_of(alloc, &[], u64::MAX).ok_or(LineErr::NoMemory)?;
    match over_files(alloc, Files { log, db }, Nothing)? {
        Worked::Unopened(files) => Ok(files.db.inner().bytes() == bytes),
        Worked::Done(_, ()) => Ok(false),
        Worked::Lost => Ok(false),
    }
}

// A new keeper is asked commits.
#[derive(Drop)]
struct Commits<'a> {
    commits: &'a [Vec<Change>],
}

impl Work for Commits<'_> {
    type Output = Answers;

    fn over<S: Alter + Drop>(
        self,
        alloc: Global,
        conn: Connection<S>,
    ) -> Result<Option<(Connection<S>, Answers)>, LineErr> {
        let Ok(mut keeper) = KeeperSqlite::of(conn) else {
            return Ok(None);
        };
        let answers = commit_all(alloc, &mut keeper, self.commits);
        Ok(Some((keeper.into_connection(), answers)))
    }
}

// The statement that a keeper makes its table by.
const CREATE: &str =
    "CREATE TABLE IF NOT EXISTS record(kind INTEGER NOT NULL, id BLOB NOT NULL, body BLOB NOT NULL, PRIMARY KEY(kind, id)) STRICT";

// The table is made, or that is refused.
#[derive(Drop)]
struct Create;

impl Work for Create {
    type Output = bool;

    fn over<S: Alter + Drop>(
        self,
        _alloc: Global,
        mut conn: Connection<S>,
    ) -> Result<Option<(Connection<S>, bool)>, LineErr> {
        let refused = is_refused(&mut conn);
        Ok(Some((conn, refused)))
    }
}

fn is_refused<S: Alter>(conn: &mut Connection<S>) -> bool
    requires { conn.old.in_transaction ≡ false }
{
    let mut tx = conn.transaction();
    match tx.execute(CREATE, &[]) {
        Ok(_) => tx.commit().is_err(),
        Err(_) => true,
    }
}

// All rows.
#[derive(Drop)]
struct Rows;

impl Work for Rows {
    type Output = Items<Row>;

    fn over<S: Alter + Drop>(
        self,
        alloc: Global,
        conn: Connection<S>,
    ) -> Result<Option<(Connection<S>, Items<Row>)>, LineErr> {
        Ok(rows_of(alloc, conn))
    }
}

/// What commits over a new file came to, whose disk stops.
#[derive(Clone, Copy, Debug, PartialEq, Eq)]
pub enum Ended {
    /// No database was opened, or no table made.
    Unmade,
    /// So many commits were done, and the file has the rows of so many.
    Stopped { done: usize, kept: usize },
    /// All were done, and the file has their rows.
    All,
    /// It isn't as it has to be.
    Wrong(&'static str),
}

// What comes of commits, and the files. Where the keeper is refused, which drops the files, they are those in which its
// statement is refused at the same call.
fn committed(
    alloc: Global,
    commits: &[Vec<Change>],
    stopping: Stopping,
    calls: u64,
) -> Result<Option<(Files<Fused>, Option<Answers>)>, LineErr> {
    let files = with_calls(alloc, stopping, calls);
    match over_files(alloc, files, Commits { commits })? {
        Worked::Done(files, answers) => return Ok(Some((files, Some(answers)))),
        Worked::Unopened(files) => return Ok(Some((files, None))),
        Worked::Lost => {}
    }
    match over_files(alloc, with_calls(alloc, stopping, calls), Create)? {
        Worked::Done(files, refused) => Ok(if refused { Some((files, None)) } else { None }),
        Worked::Unopened(_) => Ok(None),
        Worked::Lost => Ok(None),
    }
}

// How many of the commits made these rows, by a keeper in memory.
fn place_of(
    alloc: Global,
    commits: &[Vec<Change>],
    rows: &Items<Row>,
) -> Result<Option<usize>, LineErr> {
    for count in 0..=commits.len() {
        let mut model = keeper_of(alloc, &[], Vec::new(alloc))?;
        commit_all(alloc, &mut model, &commits[..count]);
        if model.rows() == rows.as_slice() {
            return Ok(Some(count));
        }
    }
    Ok(None)
}

// Whether a fault was counted just where a commit failed.
fn fits(answers: &Answers, all: usize) -> bool {
    if answers.done == all {
        answers.faults == 0
    } else {
        answers.last == Committed::Fault && answers.faults == 1
    }
}

fn what_came(answers: Option<Answers>, all: usize, kept: Option<usize>) -> Ended {
    let Some(kept) = kept else {
        return Ended::Wrong("other rows");
    };
    let Some(answers) = answers else {
        return if kept == 0 {
            Ended::Unmade
        } else {
            Ended::Wrong("other rows")
        };
    };
    let done = answers.done;
    if !fits(&answers, all) {
        Ended::Wrong("a fault isn't counted")
    } else if kept != done && kept != done.saturating_add(1) {
        Ended::Wrong("other rows")
    } else if done == all {
        Ended::All
    } else {
        Ended::Stopped { done, kept }
    }
}

/// Commits over a new file of which one disk answers so many calls, and what is found in it when it is opened again.
pub fn run_new(
    alloc: Global,
    commits: &[Vec<Change>],
    stopping: Stopping,
    calls: u64,
) -> Result<Ended, LineErr> {
    let Some((files, answers)) = committed(alloc, commits, stopping, calls)? else {
        return Ok(Ended::Wrong("a keeper was refused"));
    };
    match over_files(alloc, come_back(files), Rows)? {
        Worked::Done(_, rows) => {
            let kept = place_of(alloc, commits, &rows)?;
            Ok(what_came(answers, commits.len(), kept))
        }
        Worked::Unopened(_) => Ok(Ended::Wrong("not opened again")),
        Worked::Lost => Ok(Ended::Wrong("not opened again")),
    }
}

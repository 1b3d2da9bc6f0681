// A book that is asked calls, up to the first that is lost.
ghost use Rattle.std.specs.Prelude.{◌≡◌, false, IfOk, IfSome};

use keeper_sqlite::KeeperSqlite;
use machine_calls::Reply;
use sat_base::{Change, Items, Keeper, Loaded, Row};
use sat_book::NotOpened;
use sqlite::{Alter, Connection};
use std::alloc::Global;
use trial_lines::{BoundedBook, LineErr, keeper_of};

// A book has room for so many entries.
const TERM: u64 = 100;

/// What became of calls.
#[derive(Clone, Copy, Debug, PartialEq, Eq)]
pub enum Asked {
    /// No book was opened.
    Unopened,
    /// So many were answered. The next one was lost, if there is one, and no further one asked.
    Answered(usize),
}

// Whether a reply is an answer, and the call isn't lost.
fn is_answer(reply: Reply) -> bool {
    !matches!(reply, Reply::StoreFault { .. } | Reply::NoMemory)
}

fn ask<K: Keeper>(
    alloc: Global,
    book: &mut BoundedBook<K>,
    calls: &[&str],
) -> Result<Asked, LineErr> {
    let mut answered = 0usize;
    for line in calls {
        let Some(reply) = book.ask_line(alloc, line)? else {
            return Err(LineErr::Bad);
        };
        if !is_answer(reply) {
            break;
        }
        answered = answered.saturating_add(1);
    }
    Ok(Asked::Answered(answered))
}

/// Opens a book over a keeper and asks it calls.
pub fn ask_over<K: Keeper>(
    alloc: Global,
    keeper: K,
    calls: &[&str],
) -> Result<(K, Asked), LineErr> {
    let mut book = match BoundedBook::open(alloc, keeper, TERM) {
        Ok(book) => book,
        Err(NotOpened { keeper, .. }) => return Ok((keeper, Asked::Unopened)),
    };
    let asked = ask(alloc, &mut book, calls);
    let (keeper, _) = book.close();
    Ok((keeper, asked?))
}

/// The same over a connection, unless a keeper is refused.
pub fn ask_file<S: Alter + Drop>(
    alloc: Global,
    conn: Connection<S>,
    calls: &[&str],
) -> Result<Option<(Connection<S>, Asked)>, LineErr>
    requires { conn.in_transaction ≡ false }
    ensures { IfOk result (λ found. IfSome found (λ r. r.0.in_transaction ≡ false)) }
{
    let Ok(keeper) = KeeperSqlite::of(conn) else {
        return Ok(None);
    };
    let (keeper, asked) = ask_over(alloc, keeper, calls)?;
    Ok(Some((keeper.into_connection(), asked)))
}

/// What a store is to come to: its rows as it is set up, and after each number of its calls.
#[derive(Drop)]
pub struct Course {
    pub first: Items<Row>,
    pub after: Vec<Items<Row>>,
}

impl Course {
    /// By a keeper in memory that doesn't fail. Each call is to be answered.
    pub fn of(alloc: Global, changes: &[Change], calls: &[&str]) -> Result<Course, LineErr> {
        let mut first = keeper_of(alloc, changes, Vec::new(alloc))?;
        let first = loaded(alloc, &mut first)?;
        let mut after = Vec::new(alloc);
        for count in 0..=calls.len() {
            let keeper = keeper_of(alloc, changes, Vec::new(alloc))?;
            let (mut keeper, asked) = ask_over(alloc, keeper, &calls[..count])?;
            if asked != Asked::Answered(count) {
                return Err(LineErr::Bad);
            }
            after.push(loaded(alloc, &mut keeper)?)?;
        }
        Ok(Course { first, after })
    }

    /// After how many calls the store has these rows.
    pub fn place_of(&self, rows: &Items<Row>) -> Option<usize> {
        self.after.iter().position(|after| *after == *rows)
    }
}

fn loaded<K: Keeper>(alloc: Global, keeper: &mut K) -> Result<Items<Row>, LineErr> {
    match keeper.load(alloc) {
        Loaded::Rows(rows) => Ok(rows),
        Loaded::Fault | Loaded::NoMemory => Err(LineErr::NoMemory),
    }
}

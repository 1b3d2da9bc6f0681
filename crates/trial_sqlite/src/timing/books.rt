// Books over files of settled orders.
use super::files::{Done, Work, commit, keeper_of, over_file, report, use_file};
use anyhow::{Result, bail};
use machine_calls::Reply;
use sat_base::{Change, Keeper, Row, limits};
use sqlite::{Alter, Connection};
use std::alloc::Global;
use std::time::Instant;
use trial_lines::{BoundedBook, row_of_record};

/// The settled orders of a commit while a store is filled.
const FILL: u64 = 1000;

/// The secret is 32 zeros, and the one node has number 1.
const STORE: [&str; 4] = [
    "settings 0000000000000000000000000000000000000000000000000000000000000000 2 3 4 6 16 100 5 10 10 10 4194304 10 10 24314",
    "marks 1772323200 1 1 1 24314 0",
    "node 1 256 28967 1099511627776 1772323200 10000 0 0 active",
    "tariff 24314 20000000 10000000 10000000 1500000",
];

fn row(alloc: Global, line: &str) -> Result<Row> {
    match row_of_record(alloc, line, 0) {
        Ok(row) => Ok(row),
        Err(_) => bail!("no record"),
    }
}

fn settled(alloc: Global, serial: u64) -> Result<Change> {
    let line = format!(in alloc; "settled {serial} 1 2 1000 1772323200")?;
    Ok(Change::Put(row(alloc, &line)?))
}

fn store(alloc: Global) -> Result<Vec<Change>> {
    let mut changes = Vec::new(alloc);
    for line in STORE {
        changes.push(Change::Put(row(alloc, line)?))?;
    }
    Ok(changes)
}

fn settled_from(alloc: Global, first: u64) -> Result<Vec<Change>> {
    let mut changes = Vec::new(alloc);
    for k in 0..FILL {
        changes.push(settled(alloc, first.wrapping_add(k))?)?;
    }
    Ok(changes)
}

fn fill_keeper<K: Keeper>(alloc: Global, keeper: &mut K, count: u64) -> Result<()> {
    commit(alloc, keeper, &store(alloc)?)?;
    for batch in 0..count / FILL {
        commit(alloc, keeper, &settled_from(alloc, batch * FILL)?)?;
    }
    Ok(())
}

// A store of so many settled orders.
#[derive(Drop)]
struct Filled {
    count: u64,
}

impl Work for Filled {
    type Output = ();

    fn over<S: Alter + Drop>(self, rt: &HostRuntime, conn: Connection<S>) -> Result<Done<S, ()>> {
        let mut keeper = keeper_of(conn)?;
        let filled = fill_keeper(rt.alloc(), &mut keeper, self.count);
        Ok((keeper.into_connection(), filled))
    }
}

/// Makes a store of so many settled orders, whose serials begin with 0.
pub(crate) fn fill(rt: &HostRuntime, path: &str, count: u64) -> Result<()> {
    over_file(rt, path, Filled { count })
}

fn book_of<K: Keeper>(alloc: Global, keeper: K) -> Result<BoundedBook<K>> {
    match BoundedBook::open(alloc, keeper, limits::TERM) {
        Ok(book) => Ok(book),
        Err(_) => bail!("no book"),
    }
}

// A book that is opened.
#[derive(Drop)]
struct Opening;

impl Work for Opening {
    type Output = ();

    fn over<S: Alter + Drop>(self, rt: &HostRuntime, conn: Connection<S>) -> Result<Done<S, ()>> {
        let start = Instant::now(rt)?;
        let book = book_of(rt.alloc(), keeper_of(conn)?)?;
        let told = report(rt, "book", start);
        let (keeper, _) = book.close();
        Ok((keeper.into_connection(), told))
    }
}

/// How long it takes to open a file, and a book over it.
pub(crate) fn time_opening(rt: &HostRuntime, path: &str) -> Result<()> {
    let used = use_file(rt, path, Some("file"), Opening)?;
    used.closed?;
    used.value
}

fn is_settled(reply: &Option<Reply>) -> bool {
    matches!(reply, Some(Reply::Settled { .. }))
}

// Settles the order of a serial, and gives the nanoseconds of that and of reading its line.
fn settle<K: Keeper>(rt: &HostRuntime, book: &mut BoundedBook<K>, serial: u64) -> Result<u128> {
    let line = format!(in rt.alloc();
        "settle 1772323200 1 order 2 {serial} 1 5 3 1000 1772323200 1772409600 9 1000"
    )?;
    let start = Instant::now(rt);
    let settled = book
        .ask_line(rt.alloc(), &line)
        .is_ok_and(|reply| is_settled(&reply));
    let spent = start?.elapsed(rt)?.as_nanos();
    if !settled {
        bail!("not settled");
    }
    Ok(spent)
}

fn settle_all<K: Keeper>(
    rt: &HostRuntime,
    book: &mut BoundedBook<K>,
    first: u64,
    count: u64,
) -> Result<()> {
    for k in 0..count {
        let spent = settle(rt, book, first.wrapping_add(k))?;
        println!(rt; "settle {spent}")?;
    }
    Ok(())
}

// Settles so many orders, from a serial on.
#[derive(Drop)]
struct Settles {
    first: u64,
    count: u64,
}

impl Work for Settles {
    type Output = ();

    fn over<S: Alter + Drop>(self, rt: &HostRuntime, conn: Connection<S>) -> Result<Done<S, ()>> {
        let mut book = book_of(rt.alloc(), keeper_of(conn)?)?;
        let settled = settle_all(rt, &mut book, self.first, self.count);
        let (keeper, _) = book.close();
        Ok((keeper.into_connection(), settled))
    }
}

/// How long it takes to settle so many orders, from a serial on.
pub(crate) fn time_settles(rt: &HostRuntime, path: &str, first: u64, count: u64) -> Result<()> {
    over_file(rt, path, Settles { first, count })
}

// The rows of one settled order, as a book commits them.
fn rows_of_settle(alloc: Global, serial: u64) -> Result<Vec<Change>> {
    let mut changes = Vec::new(alloc);
    changes.push(Change::Put(row(alloc, STORE[1])?))?;
    changes.push(settled(alloc, serial)?)?;
    Ok(changes)
}

fn commit_all<K: Keeper>(rt: &HostRuntime, keeper: &mut K, first: u64, count: u64) -> Result<()> {
    let alloc = rt.alloc();
    for k in 0..count {
        let changes = rows_of_settle(alloc, first.wrapping_add(k))?;
        let start = Instant::now(rt)?;
        commit(alloc, keeper, &changes)?;
        report(rt, "commit", start)?;
    }
    Ok(())
}

// Commits the rows of so many settled orders, from a serial on.
#[derive(Drop)]
struct Commits {
    first: u64,
    count: u64,
}

impl Work for Commits {
    type Output = ();

    fn over<S: Alter + Drop>(self, rt: &HostRuntime, conn: Connection<S>) -> Result<Done<S, ()>> {
        let mut keeper = keeper_of(conn)?;
        let done = commit_all(rt, &mut keeper, self.first, self.count);
        Ok((keeper.into_connection(), done))
    }
}

/// How long it takes to commit the rows of as many settled orders by the keeper alone.
pub(crate) fn time_commits(rt: &HostRuntime, path: &str, first: u64, count: u64) -> Result<()> {
    over_file(rt, path, Commits { first, count })
}

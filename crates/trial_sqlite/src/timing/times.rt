// Times of commits, of an opening and of a load, in nanoseconds.
use super::files::{self, Done, Nothing, Work, commit, keeper_of, over_file, report};
use super::made::puts;
use anyhow::Result;
use sat_base::Keeper;
use sqlite::{Alter, Connection};
use std::time::Instant;

/// The changes of one commit while a file is filled.
const FILL: u64 = 1000;

/// How often each size of a commit is timed.
const ROUNDS: u8 = 20;

fn time_fill<K: Keeper>(rt: &HostRuntime, keeper: &mut K, count: u64) -> Result<()> {
    let alloc = rt.alloc();
    let start = Instant::now(rt)?;
    for batch in 0..count / FILL {
        let changes = puts(alloc, batch.wrapping_mul(FILL), FILL, 1)?;
        commit(alloc, keeper, &changes)?;
    }
    report(rt, "fill", start)
}

fn time_commit<K: Keeper>(rt: &HostRuntime, keeper: &mut K, size: u64, round: u8) -> Result<()> {
    let alloc = rt.alloc();
    let changes = puts(alloc, u64::MAX / 2, size, round)?;
    let start = Instant::now(rt)?;
    commit(alloc, keeper, &changes)?;
    let spent = start.elapsed(rt)?.as_nanos();
    println!(rt; "commit of {size} {spent}")?;
    Ok(())
}

fn time_all<K: Keeper>(rt: &HostRuntime, keeper: &mut K, count: u64) -> Result<()> {
    time_fill(rt, keeper, count)?;
    for round in 0..ROUNDS {
        for size in [1, 10, 100] {
            time_commit(rt, keeper, size, round)?;
        }
    }
    Ok(())
}

// Commits to a file that is filled with so many rows.
#[derive(Drop)]
struct Commits {
    count: u64,
}

impl Work for Commits {
    type Output = ();

    fn over<S: Alter + Drop>(self, rt: &HostRuntime, conn: Connection<S>) -> Result<Done<S, ()>> {
        let mut keeper = keeper_of(conn)?;
        let timed = time_all(rt, &mut keeper, self.count);
        Ok((keeper.into_connection(), timed))
    }
}

fn time_rows<K: Keeper>(rt: &HostRuntime, keeper: &mut K) -> Result<()> {
    let start = Instant::now(rt)?;
    let rows = files::load(rt.alloc(), keeper)?;
    report(rt, "load", start)?;
    let count = rows.len();
    println!(rt; "rows {count}")?;
    Ok(())
}

// A load.
#[derive(Drop)]
struct Loads;

impl Work for Loads {
    type Output = ();

    fn over<S: Alter + Drop>(self, rt: &HostRuntime, conn: Connection<S>) -> Result<Done<S, ()>> {
        let mut keeper = keeper_of(conn)?;
        let timed = time_rows(rt, &mut keeper);
        Ok((keeper.into_connection(), timed))
    }
}

// Works over a file whose opening is timed.
fn time_open<W: Work>(rt: &HostRuntime, path: &str, work: W) -> Result<W::Output> {
    let used = files::use_file(rt, path, Some("open"), work)?;
    used.closed?;
    used.value
}

/// How long an opening takes.
pub(crate) fn open(rt: &HostRuntime, path: &str) -> Result<()> {
    time_open(rt, path, Nothing)
}

/// How long an opening and a load take.
pub(crate) fn load(rt: &HostRuntime, path: &str) -> Result<()> {
    time_open(rt, path, Loads)
}

/// How long commits to a file take, which is filled with so many rows, and then the opening and a load.
pub(crate) fn all(rt: &HostRuntime, path: &str, count: u64) -> Result<()> {
    over_file(rt, path, Commits { count })?;
    load(rt, path)
}

// Rows committed until the disk is full.
use super::files::{Done, Work, keeper_of, use_file};
use super::made::puts;
use anyhow::{Result, bail};
use sat_base::{Committed, Keeper, Loaded};
use sqlite::{Alter, Connection};
use std::alloc::Global;

/// The rows of a commit, and the most commits that are tried.
const BATCH: u64 = 20;

const BATCHES: u64 = 100_000;

/// How many commits there are up to the first that fails.
fn commit_until_fault<K: Keeper>(alloc: Global, keeper: &mut K) -> Result<u64> {
    for batch in 0..BATCHES {
        let changes = puts(alloc, batch * BATCH, BATCH, 1)?;
        match keeper.commit(alloc, &changes) {
            Committed::Done => {}
            Committed::Fault => return Ok(batch),
            Committed::NoMemory => bail!("out of memory"),
        }
    }
    bail!("the disk isn't full")
}

fn print_loaded<K: Keeper>(rt: &HostRuntime, keeper: &mut K) -> Result<()> {
    match keeper.load(rt.alloc()) {
        Loaded::Rows(rows) => {
            let count = rows.len();
            println!(rt; "loaded {count}")?;
        }
        Loaded::Fault => println!(rt; "not loaded")?,
        Loaded::NoMemory => bail!("out of memory"),
    }
    Ok(())
}

fn fill_keeper<K: Keeper>(rt: &HostRuntime, keeper: &mut K) -> Result<()> {
    let acknowledged = commit_until_fault(rt.alloc(), keeper)?.wrapping_mul(BATCH);
    println!(rt; "acknowledged {acknowledged}")?;
    let faults = keeper.count();
    println!(rt; "faults {faults}")?;
    print_loaded(rt, keeper)
}

// Fills the disk.
#[derive(Drop)]
struct FullDisk;

impl Work for FullDisk {
    type Output = ();

    fn over<S: Alter + Drop>(self, rt: &HostRuntime, conn: Connection<S>) -> Result<Done<S, ()>> {
        let mut keeper = keeper_of(conn)?;
        let filled = fill_keeper(rt, &mut keeper);
        Ok((keeper.into_connection(), filled))
    }
}

/// Fills the disk of a file, and closes the file if that is possible.
pub(crate) fn fill(rt: &HostRuntime, path: &str) -> Result<()> {
    let used = use_file(rt, path, None, FullDisk)?;
    let closed = used.closed.is_ok();
    used.value?;
    println!(rt; "closed {closed}")?;
    Ok(())
}

// A store that is asked calls of every kind.
use crate::calls::{Answer, Kind, ask, read_alone};
use crate::dropping::{Asked, DroppingKeeper};
use crate::made::{SECRET, Size, changes};
use crate::{fold, months, upkeep};
use anyhow::{Result, bail};
use audit_core::Checked;
use order_limits::Keys;
use sat_base::{NodeId, limits};
use std::alloc::Global;
use std::time::{Clock, Instant};

const KINDS: [Kind; 10] = [
    Kind::SettleAbove,
    Kind::SettleAmong,
    Kind::Get,
    Kind::Begin,
    Kind::SetFree,
    Kind::PlanAudit,
    Kind::PlanRepair,
    Kind::PlanExit,
    Kind::Recheck,
    Kind::Delete,
];

/// What came of the calls of a kind.
#[derive(Drop)]
pub(crate) struct Outcome {
    accepted: u64,
    sum: u64,
    times: Vec<u128>,
}

impl Outcome {
    /// Of no calls.
    pub(crate) fn new(alloc: Global) -> Self {
        Outcome {
            accepted: 0,
            sum: fold::EMPTY,
            times: Vec::new(alloc),
        }
    }

    /// With one more call.
    pub(crate) fn add(&mut self, answer: Answer) -> Result<()> {
        self.sum = fold::mix(self.sum, answer.sum);
        if answer.accepted {
            self.accepted = self.accepted.saturating_add(1);
        }
        self.times.push(answer.spent)?;
        Ok(())
    }
}

// The book of a store, and how many nanoseconds its making took.
fn open(clock: &impl Clock, alloc: Global, size: Size) -> Result<(Asked, u128)> {
    let keeper = DroppingKeeper::of(alloc, &changes(alloc, size)?)?;
    let start = Instant::now(clock)?;
    match Asked::open(alloc, keeper, limits::TERM) {
        Ok(book) => Ok((book, start.elapsed(clock)?.as_nanos())),
        Err(_) => bail!("the rows make no book"),
    }
}

fn outcome_of(
    clock: &impl Clock,
    alloc: Global,
    keys: &Keys,
    book: &mut Asked,
    size: Size,
    kind: Kind,
) -> Result<Outcome> {
    let mut outcome = Outcome::new(alloc);
    for number in 0..size.calls {
        outcome.add(ask(clock, alloc, keys, book, size, kind, number)?)?;
    }
    Ok(outcome)
}

fn print_times(rt: &HostRuntime, what: &str, times: Vec<u128>) -> Result<()> {
    let mut times = times;
    times.sort_unstable();
    let calls = times.len();
    let least = times.first().copied().unwrap_or(0);
    let median = times.get(calls / 2).copied().unwrap_or(0);
    let most = times.last().copied().unwrap_or(0);
    println!(rt; "{what} calls {calls} least {least} median {median} most {most}")?;
    Ok(())
}

fn time_reading(rt: &HostRuntime, keys: &Keys, size: Size) -> Result<()> {
    let mut times = Vec::new(rt.alloc());
    for number in 0..size.calls {
        times.push(read_alone(rt, keys, number)?)?;
    }
    print_times(rt, "read_order", times)
}

// Each `Get` and each `Delete` needs a segment of its own, each order a place of its own among the rows, and each recheck a
// node of its own.
fn test_size(size: Size) -> Result<()> {
    if size.calls.saturating_mul(2) > size.segments || size.calls > size.rows {
        bail!("there are too few segments or rows");
    }
    if size.nodes <= size.calls.saturating_add(1) || size.nodes < 120 || size.nodes > 65_536 {
        bail!("so many nodes don't do");
    }
    Ok(())
}

fn print_sum(rt: &HostRuntime, what: &str, outcome: &Outcome) -> Result<()> {
    let accepted = outcome.accepted;
    let sum = outcome.sum;
    println!(rt; "{what} accepted {accepted} sum {sum}")?;
    Ok(())
}

// The times of calls that were all accepted.
fn print_accepted(rt: &HostRuntime, what: &str, outcome: Outcome) -> Result<()> {
    if outcome.accepted != outcome.times.len() as u64 {
        bail!("a call isn't accepted");
    }
    print_times(rt, what, outcome.times)
}

// A node fails its recheck and is disqualified. The next call counts its pieces as lost.
fn time_loss(rt: &HostRuntime, book: &mut Asked) -> Result<()> {
    let failed = upkeep::recheck(rt, book, Checked::Fail)?.spent;
    let behind = upkeep::set_free(rt, rt.alloc(), book, NodeId(1), 0)?.spent;
    println!(rt; "disqualified failed {failed} behind {behind}")?;
    Ok(())
}

/// Prints how many calls of each kind were accepted, and the check sums of their replies.
pub(crate) fn check(rt: &HostRuntime, size: Size) -> Result<()> {
    test_size(size)?;
    let keys = Keys::new(SECRET);
    let (mut book, _) = open(rt, rt.alloc(), size)?;
    for kind in KINDS {
        let outcome = outcome_of(rt, rt.alloc(), &keys, &mut book, size, kind)?;
        print_sum(rt, kind.name(), &outcome)?;
    }
    let months = months::pass(rt, rt.alloc(), &mut book, size)?;
    print_sum(rt, "tally_hour", &months.tallies)?;
    print_sum(rt, "close_month", &months.closes)?;
    print_sum(rt, "statement", &months.statements)
}

/// Prints in nanoseconds how long the opening takes, the reading of an order alone, and a call of each kind.
pub(crate) fn time(rt: &HostRuntime, size: Size) -> Result<()> {
    test_size(size)?;
    let keys = Keys::new(SECRET);
    let (mut book, spent) = open(rt, rt.alloc(), size)?;
    println!(rt; "open {spent}")?;
    time_reading(rt, &keys, size)?;
    for kind in KINDS {
        let outcome = outcome_of(rt, rt.alloc(), &keys, &mut book, size, kind)?;
        print_accepted(rt, kind.name(), outcome)?;
    }
    time_loss(rt, &mut book)?;
    let months = months::pass(rt, rt.alloc(), &mut book, size)?;
    print_accepted(rt, "tally_hour", months.tallies)?;
    print_accepted(rt, "close_month", months.closes)?;
    print_accepted(rt, "statement", months.statements)
}

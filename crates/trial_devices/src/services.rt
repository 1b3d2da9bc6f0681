// Devices that end together.
use crate::client::connected;
use anyhow::{Result, bail};
use sat_base::{Came, Committed, Keeper, KeeperMem, Lane, Service, Ticks};
use sat_devices::{SleepTicks, TcpLane, Watched};
use std::time::{Duration, Instant};

// What a keeper in memory answers to two commits, where those of these numbers fail, and whether the store is lost then.
fn commits(rt: &HostRuntime, service: &Service, failing: &[u64]) -> Result<(Committed, Committed)> {
    let alloc = rt.alloc();
    let mut numbers = Vec::new(alloc);
    numbers.extend_from_slice(failing)?;
    let keeper = KeeperMem::of(Vec::new(alloc), numbers);
    let mut keeper = Watched::of(keeper, shared(service)?);
    let first = keeper.commit(alloc, &[]);
    let second = keeper.commit(alloc, &[]);
    Ok((first, second))
}

// A new service.
fn started(rt: &HostRuntime) -> Result<Service> {
    match Service::new(rt.alloc()) {
        Ok(service) => Ok(service),
        Err(_) => bail!("out of memory"),
    }
}

fn shared(service: &Service) -> Result<Service> {
    match service.share() {
        Ok(service) => Ok(service),
        Err(_) => bail!("out of memory"),
    }
}

/// A commit that fails, as on a full disk, and one after which none can be done.
pub fn losses(rt: &HostRuntime) -> Result<()> {
    let service = started(rt)?;
    let (first, second) = commits(rt, &service, &[1])?;
    let full = service.lost_store();
    let (third, fourth) = commits(rt, &service, &[1, 2])?;
    let lost = service.lost_store();
    println!(rt;
        "full disk: {first:?} {second:?}, lost {full}; failed device: {third:?} {fourth:?}, lost {lost}"
    )?;
    Ok(())
}

/// Lanes and ticks end once the store is lost: clients are refused, and no tick is waited for.
pub fn ends(rt: &HostRuntime) -> Result<()> {
    let service = started(rt)?;
    let mut lane = TcpLane::listen(*rt, 0)?.served(shared(&service)?);
    let port = lane.port();
    let mut ticks = SleepTicks::new(*rt, 60).served(shared(&service)?);
    let first = ticks.next();
    commits(rt, &service, &[1, 2])?;
    let start = Instant::now(rt)?;
    let is_over = matches!(lane.next(), Came::Ended) && matches!(lane.next(), Came::Ended);
    let refused = connected(rt, port).is_err();
    let beats = (ticks.next(), ticks.next());
    let soon = start.elapsed(rt)? < Duration::from_secs(5);
    println!(rt; "lost store: {first:?}, over {is_over}, refused {refused}, {beats:?} {soon}")?;
    Ok(())
}

/// A lane that is shut refuses clients, and no connection comes from it. Ticks go on until the last lane is shut, and a stop
/// is told.
pub fn shuts(rt: &HostRuntime) -> Result<()> {
    let service = started(rt)?;
    let mut ticks = SleepTicks::new(*rt, 0).served(shared(&service)?);
    let mut first = TcpLane::listen(*rt, 0)?.served(shared(&service)?);
    let mut second = TcpLane::listen(*rt, 0)?.served(shared(&service)?);
    first.shut(false);
    let refused = connected(rt, first.port()).is_err();
    let ended = matches!(first.next(), Came::Ended);
    let open = (ticks.next(), service.has_stopped());
    second.shut(true);
    let closed = (ticks.next(), service.has_stopped());
    println!(rt; "shut: refused {refused}, ended {ended}, {open:?}, {closed:?}")?;
    Ok(())
}

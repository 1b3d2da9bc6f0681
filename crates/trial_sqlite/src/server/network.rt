// A run with all its workers, a tick a second, over storage nodes that this program plays: one of them alters its piece, and one
// has lost it. They are blamed until they are disqualified, and then the segment is repaired.
ghost use Rattle.std.specs.Prelude.{◌≤◌, length, IfOk};

use super::asking::{NOW, begin, commit, customer, get, node_at, stop};
use super::nodes::{Port, quit};
use super::served::{Left, asked, line_of, make, run_over};
use anyhow::{Result, bail};
use sat_base::{Keeper, Loaded, MemClock, MemConsole, MemWords, Nodes, OpenGate};
use sat_devices::{SleepTicks, TcpLane};
use satellite_cli::{Kit, Post, World};
use std::alloc::Global;
use std::sync::Wait;
use std::thread;
use std::thread::{Threads, join};
use std::time::Duration;

// How many nodes there are. The network places six pieces, of which five are kept at first.
const NODES: u8 = 8;

// How often the client looks whether the segment was repaired.
const LOOKS: u64 = 240;

// The milliseconds between two looks.
const PAUSE: u64 = 250;

// Enough for each tick until then.
const MOMENTS: usize = 2048;

const WORDS: usize = 65536;

/// The storage nodes of each worker of rounds.
#[derive(Drop)]
pub struct Network<N> {
    pub audit: N,
    pub repair: N,
    pub tally: N,
}

fn clock(alloc: Global) -> Result<MemClock> {
    Ok(MemClock::of(vec![in alloc; NOW; MOMENTS]?))
}

fn words(alloc: Global) -> Result<MemWords> {
    Ok(MemWords::of(vec![in alloc; 0; WORDS]?, Vec::new(alloc)))
}

type NetworkKit<N> = Kit<N, MemClock, MemWords, SleepTicks<HostRuntime>>;

fn kit<N: Drop>(rt: HostRuntime, nodes: N) -> Result<NetworkKit<N>> {
    let alloc = rt.alloc();
    let (clock, words) = (clock(alloc)?, words(alloc)?);
    Ok(Kit {
        nodes,
        clock,
        words,
        ticks: SleepTicks::new(rt, 1),
    })
}

type Lanes = Vec<Post<TcpLane<HostRuntime>, MemClock, MemWords>>;

// What the worker of the lane has.
fn posts(alloc: Global, lane: TcpLane<HostRuntime>) -> Result<Lanes>
    ensures { IfOk result (λ posts. length posts.items ≤ 16) }
{
    let (clock, words) = (clock(alloc)?, words(alloc)?);
    Ok(Vec::from_array(alloc, [Post { lane, clock, words }])?)
}

// Serves until the machine is stopped. The keeper comes back, with the status.
fn served<K: Keeper + Send, N: Nodes + Send, R: Threads + Wait + Sync>(
    rt: HostRuntime,
    handles: &R,
    keeper: K,
    lane: TcpLane<HostRuntime>,
    network: Network<N>,
) -> Result<(K, u8)> {
    let alloc = rt.alloc();
    let line = line_of(alloc, "serve --store s --port 1 --tick 1")?;
    let Network {
        audit,
        repair,
        tally,
    } = network;
    let (audit, repair, tally) = (kit(rt, audit)?, kit(rt, repair)?, kit(rt, tally)?);
    let world = World {
        console: MemConsole::of(alloc, Vec::new(alloc), Vec::new(alloc)),
        keeper,
        posts: posts(alloc, lane)?,
        audit,
        repair,
        tally,
        gate: OpenGate::of(),
    };
    let Left {
        status,
        console: _,
        keeper,
    } = run_over(handles, alloc, &line, world);
    Ok((keeper, status))
}

// Whether an offer has the pieces of the first two nodes, at others.
fn is_whole(offer: &[u8]) -> bool {
    let has = |part: &[u8]| offer.windows(part.len()).any(|window| window == part);
    has(b"\"index\":0,") && has(b"\"index\":1,") && !has(b"\"node\":1,") && !has(b"\"node\":2,")
}

// Whether the altered and the lost piece are offered by other nodes before the client gives up.
fn is_repaired(rt: &HostRuntime, port: u16) -> Result<bool> {
    for number in 3..LOOKS {
        let offer = asked(rt, port, &get(rt.alloc(), number)?)?;
        if is_whole(&offer) {
            return Ok(true);
        }
        thread::sleep(rt, Duration::from_millis(PAUSE));
    }
    Ok(false)
}

// Adds the nodes and a customer, has a segment, and waits until it was repaired.
fn used(rt: &HostRuntime, port: u16, nodes: u16) -> Result<bool> {
    let alloc = rt.alloc();
    for number in 1..NODES + 1 {
        asked(rt, port, &node_at(alloc, number, nodes)?)?;
    }
    asked(rt, port, &customer(alloc, u64::from(NODES) + 1)?)?;
    asked(rt, port, &begin(alloc)?)?;
    asked(rt, port, &commit(alloc)?)?;
    is_repaired(rt, port)
}

// The client. Whatever comes of it, the machine and the nodes are ended.
fn client(rt: &HostRuntime, port: u16, nodes: u16) -> Result<bool> {
    let repaired = used(rt, port, nodes);
    asked(rt, port, &stop(rt.alloc())?)?;
    quit(rt, nodes)?;
    repaired
}

// Tells each node's status, and the version and the number of pieces of the segment.
fn tell_rows<K: Keeper>(rt: &HostRuntime, mut keeper: K) -> Result<()> {
    let Loaded::Rows(rows) = keeper.load(rt.alloc()) else {
        bail!("no rows");
    };
    for row in &rows.into_vec() {
        match (row.kind, row.id.as_slice(), row.body.as_slice()) {
            (3, [.., node], [.., status]) => println!(rt; "node {node} status {status}")?,
            (5, [.., segment], body) if body.len() > 20 => {
                let (version, pieces) = (body[19], body[20]);
                println!(rt; "segment {segment} version {version} pieces {pieces}")?;
            }
            _ => {}
        }
    }
    Ok(())
}

/// Makes a store in a keeper, and runs the network over it.
pub fn run<K: Keeper + Send, N: Nodes + Send, R: Threads + Wait + Sync>(
    rt: &HostRuntime,
    handles: &R,
    keeper: K,
    network: Network<N>,
) -> Result<()> {
    let keeper = make(rt, handles, keeper)?;
    let lane = TcpLane::listen(*rt, 0)?;
    let port = lane.port();
    let nodes = Port::bound(rt)?;
    let number = nodes.number();
    let (left, (kept, repaired)) = join(
        handles,
        move || served(*rt, handles, keeper, lane, network).ok(),
        move || {
            join(
                handles,
                move || nodes.serve(),
                move || client(rt, port, number).ok(),
            )
        },
    );
    let (Some((keeper, status)), Some(kept), Some(repaired)) = (left, kept, repaired) else {
        bail!("no answer");
    };
    let (good, wrong) = (kept.good, kept.wrong);
    println!(rt; "network {status} repaired {repaired} kept {good} wrong {wrong}")?;
    tell_rows(rt, keeper)
}

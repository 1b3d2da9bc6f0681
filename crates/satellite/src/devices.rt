// The devices of the program.
ghost use Rattle.std.specs.Prelude.{◌≡◌, ◌≤◌, length, IfOk};

use program_start::StartErr;
use sat_base::{
    Clock as Times, Gate, Keeper, Lane, Line, Link, NoMemory, Nodes, OpenGate, Service, Ticks,
    Words,
};
use sat_devices::{MachineWords, SleepTicks, SystemClock, TcpLane};
use satellite_cli::{Ended, Kit, Post, World, satellite};
use std::alloc::Global;
use std::sync::Wait;
use std::thread::Threads;

type Clock = SystemClock<HostRuntime>;

type Random = MachineWords<HostRuntime>;

/// What the workers of all lanes have.
pub type Lanes = Vec<Post<TcpLane<HostRuntime>, Clock, Random>>;

/// The storage nodes of each worker of rounds.
#[derive(Drop)]
pub struct Network<N> {
    pub audit: N,
    pub repair: N,
    pub tally: N,
}

/// What serves: the lanes, the seconds between two ticks, the storage nodes, and what tells when all of it is over.
#[derive(Drop)]
pub struct Serving<N> {
    pub posts: Lanes,
    pub tick: u32,
    pub network: Network<N>,
    pub service: Service,
}

// What a worker of rounds has: it asks these nodes, and makes a round every so many seconds.
fn kit<N>(
    rt: HostRuntime,
    nodes: N,
    tick: u32,
    service: Service,
) -> Kit<N, Clock, Random, SleepTicks<HostRuntime>> {
    Kit {
        nodes,
        clock: SystemClock::new(rt),
        words: MachineWords::new(rt),
        ticks: SleepTicks::new(rt, tick).served(service),
    }
}

/// A lane at each of so many ports of 127.0.0.1. A port that can't be had is told on standard error.
pub fn bound(
    rt: HostRuntime,
    alloc: Global,
    service: &Service,
    port: u16,
    lanes: u16,
) -> Result<Lanes, StartErr> {
    let mut posts = Vec::new(alloc);
    for number in 0..lanes {
        let port = port.saturating_add(number);
        let lane = match TcpLane::listen(rt, port) {
            Ok(lane) => lane.served(service.share()?),
            Err(e) => return Err(StartErr::of_port(&rt, "satellite", port, &e)),
        };
        let post = Post {
            lane,
            clock: SystemClock::new(rt),
            words: MachineWords::new(rt),
        };
        if posts.push(post).is_err() {
            return Err(StartErr::NoMemory);
        }
    }
    Ok(posts)
}

/// All devices of a run, over a console and a keeper.
pub type Devices<C, K, N> = World<
    C,
    K,
    TcpLane<HostRuntime>,
    N,
    Clock,
    Random,
    SleepTicks<HostRuntime>,
    OpenGate,
>;

/// All devices over a console and a keeper.
pub fn devices<C: Link, K: Drop, N: Drop>(
    rt: HostRuntime,
    console: C,
    keeper: K,
    serving: Serving<N>,
) -> Result<Devices<C, K, N>, NoMemory>
    ensures { IfOk result (λ world. world.posts ≡ serving.posts) }
{
    let Serving {
        posts,
        tick,
        network,
        service,
    } = serving;
    let (for_audit, for_repair) = (service.share()?, service.share()?);
    let Network {
        audit,
        repair,
        tally,
    } = network;
    Ok(World {
        console,
        keeper,
        posts,
        audit: kit(rt, audit, tick, for_audit),
        repair: kit(rt, repair, tick, for_repair),
        tally: kit(rt, tally, tick, service),
        gate: OpenGate::of(),
    })
}

/// Runs the command that the words are, over any devices: its status, and the keeper again. The other devices are let go here,
/// where the prover doesn't look into them, and what `satellite` promises isn't handed on, so that it needn't be worked out
/// for those of the program.
pub fn run<
    C: Link,
    K: Keeper + Send,
    L: Lane,
    N: Nodes + Send,
    T: Times + Send,
    W: Words + Send,
    I: Ticks + Send,
    G: Gate,
    R: Threads + Wait + Sync,
>(rt: &R, alloc: Global, line: &Line, world: World<C, K, L, N, T, W, I, G>) -> (u8, K)
    requires { length world.posts.items ≤ 16 }
{
    let Ended {
        status,
        world,
        term: _,
        drilled: _,
    } = satellite(rt, alloc, line, world);
    let World {
        console: _,
        keeper,
        posts: _,
        audit: _,
        repair: _,
        tally: _,
        gate: _,
    } = world;
    (status, keeper)
}

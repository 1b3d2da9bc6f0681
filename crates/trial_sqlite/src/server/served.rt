// Runs over a port.
ghost use Rattle.std.specs.Prelude.{◌≤◌, length, IfOk};

use super::asking::NOW;
use anyhow::{Result, bail};
use sat_base::{
    Clock, Gate, Keeper, Lane, Line, Link, MemClock, MemConsole, MemNodes, MemTicks, MemWords,
    Nodes, OpenGate, Ticks, Words,
};
use sat_devices::TcpLane;
use satellite_cli::{Ended, Kit, Post, World, satellite};
use std::alloc::Global;
use std::io::{Read, Write};
use std::net::{Ipv4Addr, Net, Shutdown, SocketAddr, SocketAddrV4, TcpStream};
use std::sync::Wait;
use std::thread::{Threads, join};
use std::time::Duration;
use trial_lines::text_of;

// How many seconds a client waits for an answer before it gives up.
const PATIENCE: u64 = 20;

const INIT: &str = "init --store s --k 2 --m 4 --o 5 --n 6";

const SECRET: &str = "0000000000000000000000000000000000000000000000000000000000000000";

/// The words of a command.
pub fn line_of(alloc: Global, words: &str) -> Result<Line> {
    let mut line = Line::new(alloc);
    for word in words.split_ascii_whitespace() {
        if line.push(word).is_err() {
            bail!("out of memory");
        }
    }
    Ok(line)
}

// A clock that stands still.
fn clock(alloc: Global, now: u64) -> Result<MemClock> {
    Ok(MemClock::of(vec![in alloc; now; 16]?))
}

fn kit(alloc: Global) -> Result<Kit<MemNodes, MemClock, MemWords, MemTicks>> {
    Ok(Kit {
        nodes: MemNodes::of(alloc, Vec::new(alloc), Vec::new(alloc)),
        clock: clock(alloc, NOW)?,
        words: MemWords::of(Vec::new(alloc), Vec::new(alloc)),
        ticks: MemTicks::of(0),
    })
}

/// What is looked at of what a run leaves.
#[derive(Drop)]
pub struct Left<C, K> {
    pub status: u8,
    pub console: C,
    pub keeper: K,
}

/// Runs the command over any world. All that isn't looked at is let go here, where the prover doesn't look into it.
pub fn run_over<
    C: Link,
    K: Keeper + Send,
    L: Lane,
    N: Nodes + Send,
    T: Clock + Send,
    W: Words + Send,
    I: Ticks + Send,
    G: Gate,
    R: Threads + Wait + Sync,
>(rt: &R, alloc: Global, line: &Line, world: World<C, K, L, N, T, W, I, G>) -> Left<C, K>
    requires { length world.posts.items ≤ 16 }
{
    let Ended {
        status,
        world,
        term: _,
        drilled: _,
    } = satellite(rt, alloc, line, world);
    let World {
        console,
        keeper,
        posts: _,
        audit: _,
        repair: _,
        tally: _,
        gate: _,
    } = world;
    Left {
        status,
        console,
        keeper,
    }
}

// What is run, and the moment of all clocks.
#[derive(Clone, Copy)]
pub struct Command<'a> {
    pub words: &'a str,
    pub now: u64,
}

type Lanes = Vec<Post<TcpLane<HostRuntime>, MemClock, MemWords>>;

// What the worker of a lane has, if there is a lane.
fn posts(alloc: Global, lane: Option<TcpLane<HostRuntime>>, now: u64) -> Result<Lanes>
    ensures { IfOk result (λ posts. length posts.items ≤ 16) }
{
    let clock = clock(alloc, now)?;
    let words = MemWords::of(Vec::new(alloc), Vec::new(alloc));
    match lane {
        Some(lane) => Ok(Vec::from_array(alloc, [Post { lane, clock, words }])?),
        None => Ok(Vec::new(alloc)),
    }
}

// Runs a command over a keeper and a lane, if there is one.
fn run<K: Keeper + Send, R: Threads + Wait + Sync>(
    handles: &R,
    alloc: Global,
    command: Command<'_>,
    keeper: K,
    lane: Option<TcpLane<HostRuntime>>,
) -> Result<Left<MemConsole, K>> {
    let line = line_of(alloc, command.words)?;
    let (audit, repair, tally) = (kit(alloc)?, kit(alloc)?, kit(alloc)?);
    let posts = posts(alloc, lane, command.now)?;
    let world = World {
        console: MemConsole::of(alloc, Vec::new(alloc), Vec::new(alloc)),
        keeper,
        posts,
        audit,
        repair,
        tally,
        gate: OpenGate::of(),
    };
    Ok(run_over(handles, alloc, &line, world))
}

fn tell(rt: &HostRuntime, what: &str, bytes: &[u8]) -> Result<()> {
    let Ok(text) = text_of(rt.alloc(), bytes) else {
        bail!("out of memory");
    };
    println!(rt; "{what} {text}")?;
    Ok(())
}

// Runs a command without lanes, and tells how it ended under this name.
fn tell_command<K: Keeper + Send, R: Threads + Wait + Sync>(
    rt: &HostRuntime,
    handles: &R,
    name: &str,
    words: &str,
    keeper: K,
) -> Result<K> {
    let alloc = rt.alloc();
    let command = Command { words, now: NOW };
    let Left {
        keeper,
        status,
        console,
    } = run(handles, alloc, command, keeper, None)?;
    tell(
        rt,
        &format!(in alloc; "{name} {status}")?,
        console.written(),
    )?;
    Ok(keeper)
}

/// Makes a store in a keeper.
pub fn make<K: Keeper + Send, R: Threads + Wait + Sync>(
    rt: &HostRuntime,
    handles: &R,
    keeper: K,
) -> Result<K> {
    let words = format!(in rt.alloc(); "{INIT} --secret {SECRET}")?;
    tell_command(rt, handles, "init", &words, keeper)
}

/// Prints the sheet of March.
pub fn sheet<K: Keeper + Send, R: Threads + Wait + Sync>(
    rt: &HostRuntime,
    handles: &R,
    keeper: K,
) -> Result<K> {
    tell_command(
        rt,
        handles,
        "sheet",
        "sheet --store s --month 2026-03",
        keeper,
    )
}

// Serves until the lane ends.
fn serve_lane<K: Keeper + Send, R: Threads + Wait + Sync>(
    handles: &R,
    alloc: Global,
    command: Command<'_>,
    keeper: K,
    lane: TcpLane<HostRuntime>,
) -> Option<Left<MemConsole, K>> {
    run(handles, alloc, command, keeper, Some(lane)).ok()
}

/// What a port answers to a request.
pub fn asked(rt: &HostRuntime, port: u16, request: &[u8]) -> Result<Vec<u8>> {
    let at = SocketAddr::V4(SocketAddrV4::new(Ipv4Addr::LOCALHOST, port));
    let stream: TcpStream = rt.connect(at)?;
    stream.set_read_timeout(Some(Duration::from_secs(PATIENCE)))?;
    let mut output = &stream;
    output.write_all(request)?;
    stream.shutdown(Shutdown::Write)?;
    let mut input = &stream;
    let mut bytes = Vec::new(rt.alloc());
    input.read_to_end(&mut bytes)?;
    Ok(bytes)
}

// What it answers to requests, one after another.
fn asked_all(rt: &HostRuntime, port: u16, requests: &[Vec<u8>]) -> Option<Vec<Vec<u8>>> {
    let mut answers = Vec::new(rt.alloc());
    for request in requests {
        answers.push(asked(rt, port, request).ok()?).ok()?;
    }
    Some(answers)
}

/// Serves a port over a keeper, which a client in another thread asks for all this.
pub fn serve<K: Keeper + Send, R: Threads + Wait + Sync>(
    rt: &HostRuntime,
    handles: &R,
    command: Command<'_>,
    keeper: K,
    requests: &[Vec<u8>],
) -> Result<K> {
    let alloc = rt.alloc();
    let lane = TcpLane::listen(*rt, 0)?;
    let port = lane.port();
    let (left, answers) = join(
        handles,
        move || serve_lane(handles, alloc, command, keeper, lane),
        move || asked_all(rt, port, requests),
    );
    let (Some(left), Some(answers)) = (left, answers) else {
        bail!("no answer");
    };
    for answer in &answers {
        tell(rt, "answer", answer)?;
    }
    let Left {
        keeper,
        status,
        console,
    } = left;
    tell(rt, &format!(in alloc; "serve {status}")?, console.written())?;
    Ok(keeper)
}

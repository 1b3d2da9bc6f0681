// Connections that are answered.
use crate::client::{REQUEST, connected, hear, next_of, say, send};
use anyhow::{Result, bail};
use sat_base::{Came, Given, Lane, Sink, Source, Taken};
use sat_devices::{TcpLane, TcpLink};
use std::net::{Ipv4Addr, Net, SocketAddr, SocketAddrV4};
use std::thread;
use std::thread::Threads;
use std::time::{Duration, Instant};

// How many connections the lane of a thread serves.
const SERVED: u32 = 20;

/// A request and its answer.
pub fn exchange(rt: &HostRuntime) -> Result<()> {
    let mut lane = TcpLane::listen(*rt, 0)?;
    let client = connected(rt, lane.port())?;
    say(&client, b"question")?;
    let mut link = next_of(&mut lane)?;
    let mut buf = [0u8; 64];
    let first = link.read(&mut buf);
    let asked = buf.starts_with(b"question");
    let last = link.read(&mut buf);
    let put = link.put(b"answer");
    lane.back(link);
    let told = hear(rt.alloc(), &client)?.as_slice() == b"answer".as_slice();
    println!(rt; "exchange: {first:?} {asked}, {last:?}, {put:?} {told}")?;
    Ok(())
}

/// Clients that close at once, and behind half a request.
pub fn closed(rt: &HostRuntime) -> Result<()> {
    let mut lane = TcpLane::listen(*rt, 0)?;
    let mut buf = [0u8; 64];
    let client = connected(rt, lane.port())?;
    drop(client);
    let mut link = next_of(&mut lane)?;
    let end = link.read(&mut buf);
    lane.back(link);
    let client = connected(rt, lane.port())?;
    say(&client, b"POST /op")?;
    drop(client);
    let mut link = next_of(&mut lane)?;
    let half = link.read(&mut buf);
    let last = link.read(&mut buf);
    let faults = link.read_faults();
    lane.back(link);
    println!(rt; "closed: {end:?}; {half:?}, {last:?}; {faults}")?;
    Ok(())
}

/// A lane is at 127.0.0.1 and at no other address of the machine.
pub fn loopback(rt: &HostRuntime) -> Result<()> {
    let lane = TcpLane::listen(*rt, 0)?;
    let other = SocketAddr::V4(SocketAddrV4::new(Ipv4Addr::new(127, 0, 0, 2), lane.port()));
    match rt.connect(other) {
        Ok(_) => bail!("it is at 127.0.0.2, too"),
        Err(e) => println!(rt; "loopback: {:?}", e.kind())?,
    }
    Ok(())
}

/// A port that another lane has.
pub fn taken_port(rt: &HostRuntime) -> Result<()> {
    let lane = TcpLane::listen(*rt, 0)?;
    match TcpLane::listen(*rt, lane.port()) {
        Ok(_) => bail!("the port was given twice"),
        Err(e) => println!(rt; "taken port: {:?}", e.kind())?,
    }
    Ok(())
}

// Serves connections one after another. It gives how many were answered.
fn serve(mut lane: TcpLane<HostRuntime>) -> u32 {
    let mut answered = 0u32;
    for _ in 0..SERVED {
        let Came::Conn(mut link) = lane.next() else {
            return answered;
        };
        if answers(&mut link) {
            answered = answered.saturating_add(1);
        }
        lane.back(link);
    }
    answered
}

// Whether a request came and an answer was written.
fn answers(link: &mut TcpLink<HostRuntime>) -> bool {
    let mut buf = [0u8; 64];
    link.read(&mut buf) == Taken::Count(18) && link.put(b"answer") == Given::Count(6)
}

/// A lane in a thread, before clients one after another that stay until they hear the end. They aren't waited for.
pub fn in_a_thread(rt: &HostRuntime, threads: &impl Threads) -> Result<()> {
    let lane = TcpLane::listen(*rt, 0)?;
    let port = lane.port();
    let Ok(server) = thread::spawn(threads, move || serve(lane)) else {
        bail!("no thread");
    };
    let mut told = 0u32;
    let start = Instant::now(rt)?;
    for _ in 0..SERVED {
        let client = connected(rt, port)?;
        send(&client, REQUEST)?;
        if hear(rt.alloc(), &client)?.as_slice() == b"answer".as_slice() {
            told = told.saturating_add(1);
        }
    }
    let answered = server.join(threads);
    let soon = start.elapsed(rt)? < Duration::from_secs(10);
    println!(rt; "in a thread: {answered} {told}, {soon}")?;
    Ok(())
}

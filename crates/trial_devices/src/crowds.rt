// Many connections, of which some are silent, and don't hold the lane.
use crate::client::{REQUEST, connected, hear, next_of, send};
use anyhow::{Result, bail};
use sat_base::{Came, Given, Lane, Sink, Source, Taken};
use sat_devices::TcpLane;
use std::net::TcpStream;
use std::thread;
use std::thread::Threads;
use std::time::{Duration, Instant};

// How many clients are silent, and how many ask at once.
const SILENT: u32 = 50;

const BURST: u32 = 200;

// An answer that no client takes before it reads.
const PIECES: u32 = 15;

const PIECE: usize = 65536;

// Answers each request, so many times.
fn serve(mut lane: TcpLane<HostRuntime>, times: u32) -> u32 {
    let mut buf = [0u8; 64];
    let mut answered = 0u32;
    for _ in 0..times {
        let Came::Conn(mut link) = lane.next() else {
            return answered;
        };
        let read = link.read(&mut buf);
        if read == Taken::Count(18) && link.put(b"answer") == Given::Count(6) {
            answered = answered.saturating_add(1);
        }
        lane.back(link);
    }
    answered
}

// So many clients of a port that say nothing.
fn silent(rt: &HostRuntime, port: u16, count: u32) -> Result<Vec<TcpStream>> {
    let mut clients = Vec::new(rt.alloc());
    for _ in 0..count {
        clients.push(connected(rt, port)?)?;
    }
    Ok(clients)
}

/// Clients that say nothing hold nobody, and are closed after ten seconds.
pub fn silence(rt: &HostRuntime, threads: &impl Threads) -> Result<()> {
    let lane = TcpLane::listen(*rt, 0)?;
    let port = lane.port();
    let quiet = silent(rt, port, SILENT)?;
    let Ok(server) = thread::spawn(threads, move || serve(lane, 2)) else {
        bail!("no thread");
    };
    let start = Instant::now(rt)?;
    let client = connected(rt, port)?;
    send(&client, REQUEST)?;
    let told = hear(rt.alloc(), &client)?.as_slice() == b"answer".as_slice();
    let soon = start.elapsed(rt)? < Duration::from_secs(2);
    let mut closed = 0u32;
    for client in &quiet {
        if hear(rt.alloc(), client)?.is_empty() {
            closed = closed.saturating_add(1);
        }
    }
    let spent = start.elapsed(rt)?;
    let in_time = spent > Duration::from_secs(8) && spent < Duration::from_secs(15);
    let client = connected(rt, port)?;
    send(&client, REQUEST)?;
    hear(rt.alloc(), &client)?;
    let answered = server.join(threads);
    println!(rt; "silence: {told} {soon}, closed {closed} {in_time}, {answered}")?;
    Ok(())
}

/// Many requests at once are all answered.
pub fn burst(rt: &HostRuntime, threads: &impl Threads) -> Result<()> {
    let lane = TcpLane::listen(*rt, 0)?;
    let port = lane.port();
    let mut clients = Vec::new(rt.alloc());
    for _ in 0..BURST {
        let client = connected(rt, port)?;
        send(&client, REQUEST)?;
        clients.push(client)?;
    }
    let Ok(server) = thread::spawn(threads, move || serve(lane, BURST)) else {
        bail!("no thread");
    };
    let mut told = 0u32;
    for client in &clients {
        if hear(rt.alloc(), client)?.as_slice() == b"answer".as_slice() {
            told = told.saturating_add(1);
        }
    }
    let answered = server.join(threads);
    println!(rt; "burst: {answered} {told}")?;
    Ok(())
}

/// A client that doesn't read a long answer holds nobody, and has it once it reads.
pub fn unread_answer(rt: &HostRuntime, threads: &impl Threads) -> Result<()> {
    let mut lane = TcpLane::listen(*rt, 0)?;
    let port = lane.port();
    let slow = connected(rt, port)?;
    send(&slow, REQUEST)?;
    let mut link = next_of(&mut lane)?;
    let mut put = 0usize;
    for _ in 0..PIECES {
        if let Given::Count(count) = link.put(&[b'a'; PIECE]) {
            put = put.saturating_add(count);
        }
    }
    lane.back(link);
    let Ok(server) = thread::spawn(threads, move || serve(lane, 2)) else {
        bail!("no thread");
    };
    let start = Instant::now(rt)?;
    let client = connected(rt, port)?;
    send(&client, REQUEST)?;
    let told = hear(rt.alloc(), &client)?.as_slice() == b"answer".as_slice();
    let soon = start.elapsed(rt)? < Duration::from_secs(2);
    let heard = hear(rt.alloc(), &slow)?.len() == put;
    let client = connected(rt, port)?;
    send(&client, REQUEST)?;
    hear(rt.alloc(), &client)?;
    let answered = server.join(threads);
    println!(rt; "unread answer: {told} {soon}, {heard}, {answered}")?;
    Ok(())
}

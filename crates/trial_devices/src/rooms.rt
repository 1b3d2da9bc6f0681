// How much a lane keeps for its connections.
use crate::client::{REQUEST, connected, hear, next_of, send};
use anyhow::{Result, bail};
use sat_base::{Came, Given, Lane, Sink, Source, Taken, write_all};
use sat_devices::{Room, TcpLane, TcpLink};
use std::net::{Ipv4Addr, Net, SocketAddr, SocketAddrV4, TcpStream};
use std::thread;
use std::thread::Threads;

// A head that tells of the longest body, and half of that body.
const HEAD: &[u8; 42] = b"PUT / HTTP/1.1\r\ncontent-length: 100000\r\n\r\n";

const HALF: usize = 50000;

// The bytes of the longest piece, and the head of its put.
const PIECE: usize = 4_194_304;

const LONG_HEAD: &[u8; 43] = b"PUT / HTTP/1.1\r\ncontent-length: 4194304\r\n\r\n";

// The number of another address of the loopback: 127.0.0.2.
const OTHER: u32 = 0x7f00_0002;

// How many bytes a connection gives.
fn taken(link: &mut TcpLink<HostRuntime>) -> usize {
    let mut buf = [0u8; 8192];
    let mut all = 0usize;
    for _ in 0..u64::MAX {
        match link.read(&mut buf) {
            Taken::Count(count) => all = all.saturating_add(count),
            Taken::End | Taken::Failed => return all,
        }
    }
    all
}

/// A body is waited for that is as long as the lane has room for, and one that is longer isn't.
pub fn bodies(rt: &HostRuntime) -> Result<()> {
    let mut told = [0usize; 2];
    for (at, body) in [100000, 99999].iter().enumerate() {
        let room = Room {
            body: *body,
            ..Room::for_fields()
        };
        let mut lane = TcpLane::listen_with(*rt, 0, room)?;
        let client = connected(rt, lane.port())?;
        send(&client, HEAD)?;
        let mut link = if *body == 100000 {
            send(&client, &[b'a'; HALF])?;
            send(&client, &[b'a'; HALF])?;
            next_of(&mut lane)?
        } else {
            next_of(&mut lane)?
        };
        told[at] = taken(&mut link);
        lane.back(link);
    }
    println!(rt; "bodies: {} {}", told[0], told[1])?;
    Ok(())
}

/// Where connections hold more than there is room for, the one that came first of those whose requests aren't whole is
/// closed.
pub fn full(rt: &HostRuntime) -> Result<()> {
    let room = Room {
        body: 100000,
        answer: 1000,
        all: 120000,
    };
    let mut lane = TcpLane::listen_with(*rt, 0, room)?;
    let first = connected(rt, lane.port())?;
    send(&first, HEAD)?;
    send(&first, &[b'a'; HALF])?;
    let second = connected(rt, lane.port())?;
    send(&second, HEAD)?;
    send(&second, &[b'b'; HALF])?;
    let third = connected(rt, lane.port())?;
    send(&third, REQUEST)?;
    let link = next_of(&mut lane)?;
    lane.back(link);
    send(&second, &[b'b'; HALF])?;
    let mut link = next_of(&mut lane)?;
    let count = taken(&mut link);
    let answered = link.put(b"answer") == Given::Count(6);
    lane.back(link);
    let closed = hear(rt.alloc(), &first)?.is_empty();
    println!(rt; "full: {count} {answered}, closed {closed}")?;
    Ok(())
}

// A client of a lane at another address of the loopback, that sends a text.
fn asking(rt: &HostRuntime, port: u16, text: &[u8]) -> Result<TcpStream> {
    let at = SocketAddrV4::new(Ipv4Addr::from_bits(OTHER), port);
    let stream = rt.connect(SocketAddr::V4(at))?;
    send(&stream, text)?;
    Ok(stream)
}

// Takes a request and gives an answer, and waits for one more client, so that the answer is written. How long the request
// was, and whether the answer was taken whole.
fn serve(mut lane: TcpLane<HostRuntime>, answer: Vec<u8>) -> (usize, bool) {
    let Came::Conn(mut link) = lane.next() else {
        return (0, false);
    };
    let count = taken(&mut link);
    let is_given = write_all(&mut link, &answer);
    lane.back(link);
    if let Came::Conn(link) = lane.next() {
        lane.back(link);
    }
    (count, is_given)
}

/// A request with a piece of 4 MiB, and an answer as long as a piece and the longest head. The lane is at an address of its own.
pub fn pieces(rt: &HostRuntime, threads: &impl Threads) -> Result<()> {
    let lane = TcpLane::listen_at(*rt, Ipv4Addr::from_bits(OTHER), 0, Room::for_pieces())?;
    let port = lane.port();
    let is_elsewhere = connected(rt, port).is_err();
    let answer = vec![in rt.alloc(); b'a'; PIECE + 8192]?;
    let Ok(server) = thread::spawn(threads, move || serve(lane, answer)) else {
        bail!("no thread");
    };
    let client = asking(rt, port, LONG_HEAD)?;
    let piece = vec![in rt.alloc(); b'p'; PIECE]?;
    send(&client, piece.as_slice())?;
    let heard = hear(rt.alloc(), &client)?.len();
    let last = asking(rt, port, REQUEST)?;
    hear(rt.alloc(), &last)?;
    let (count, is_given) = server.join(threads);
    println!(rt; "pieces: elsewhere {is_elsewhere}, {count} {is_given} {heard}")?;
    Ok(())
}

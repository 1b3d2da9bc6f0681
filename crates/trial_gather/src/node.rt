// Nodes of the cases: listeners that read one request each, and answer as they are told.
use sat_base::{Ask, NodeId, SegId};
use std::io::{Read, Write};
use std::net::{Ipv4Addr, Net, SocketAddr, TcpListener, TcpStream};
use std::sync::atomic::{AtomicU32, Ordering};
use std::time::{Clock, Duration};
use std::{io, thread};

/// How a node writes its answer.
#[derive(Clone, Copy)]
pub enum Manner {
    /// At once.
    Says,
    /// A byte a write.
    Spells,
}

// How often a mark is looked at.
const LOOKS: u64 = 1 << 28;

// The most bytes of a request.
const MOST: usize = 4096;

// Where the piece's index begins in a request, as in "GET /piece/5/3".
const INDEX_AT: usize = 13;

/// A listener at a free port of this machine, and the port.
pub fn listen<N>(rt: &N) -> io::Result<(TcpListener, u16)>
where
    N: Net<Listener = TcpListener, Stream = TcpStream>,
{
    let listener = TcpListener::bind(rt, SocketAddr::from((Ipv4Addr::LOCALHOST, 0)))?;
    let port = listener.local_addr()?.port();
    Ok((listener, port))
}

/// An ask to a port of this machine, for so many bytes of a piece of segment 5.
pub fn ask_at(port: u16, index: u8, len: u64) -> Ask {
    Ask {
        node: NodeId(1),
        addr: 0x7f00_0001,
        port,
        segment: SegId(5),
        index,
        offset: 0,
        len,
        order: [7; 123],
    }
}

// Reads a request's head, and its body where it has one of so many bytes. It gives the first digit of the piece's index.
fn read_request(socket: &mut TcpStream, body: usize) -> io::Result<u8> {
    let mut last = [0u8; 4];
    let mut index = 0;
    for at in 0..MOST {
        let mut byte = [0u8; 1];
        socket.read_exact(&mut byte)?;
        last = [last[1], last[2], last[3], byte[0]];
        if at == INDEX_AT {
            index = byte[0];
        }
        if last == *b"\r\n\r\n" {
            break;
        }
    }
    for _ in 0..body {
        socket.read_exact(&mut [0u8; 1])?;
    }
    Ok(index)
}

/// Serves one connection, whose request has a body of so many bytes, with an answer of this text, and closes it.
pub fn serve(listener: &TcpListener, body: usize, manner: Manner, text: &[u8]) -> io::Result<()> {
    let (mut socket, _) = listener.accept()?;
    read_request(&mut socket, body)?;
    match manner {
        Manner::Says => socket.write_all(text),
        Manner::Spells => {
            for byte in text {
                socket.write_all(&[*byte])?;
            }
            Ok(())
        }
    }
}

/// Serves one connection after another, each after a pause, up to the one that asks for the last index, a digit. A client
/// that gave up is passed over.
pub fn serve_late(
    clock: &impl Clock,
    listener: &TcpListener,
    pause: Duration,
    last: u8,
    text: &[u8],
) -> io::Result<()> {
    for _ in 0..MOST {
        let (mut socket, _) = listener.accept()?;
        let Ok(index) = read_request(&mut socket, 0) else {
            continue;
        };
        thread::sleep(clock, pause);
        let written = socket.write_all(text);
        if index == last {
            return written;
        }
    }
    Ok(())
}

/// A check sum of bytes, behind those that it has.
pub fn sum_behind(sum: u64, bytes: &[u8]) -> u64 {
    bytes.iter().fold(sum, |sum, byte| {
        sum.wrapping_mul(31).wrapping_add(u64::from(*byte))
    })
}

/// Takes a request with a body of so many bytes, and answers that it is kept. It gives the check sum of the body.
pub fn keep(listener: &TcpListener, body: usize) -> io::Result<u64> {
    let (mut socket, _) = listener.accept()?;
    read_request(&mut socket, 0)?;
    let mut piece = [0u8; MOST];
    let mut sum = 0u64;
    let mut left = body;
    for _ in 0..=body {
        if left == 0 {
            break;
        }
        let part = &mut piece[..left.min(MOST)];
        socket.read_exact(part)?;
        sum = sum_behind(sum, part);
        left = left.saturating_sub(MOST);
    }
    socket.write_all(b"HTTP/1.1 200 OK\r\n\r\n")?;
    Ok(sum)
}

/// Serves one connection. Sets a mark once the request was read, and answers once the other mark is set. True if it was.
pub fn follow(
    listener: &TcpListener,
    text: &[u8],
    mine: &AtomicU32,
    other: &AtomicU32,
) -> io::Result<bool> {
    let (mut socket, _) = listener.accept()?;
    read_request(&mut socket, 0)?;
    mine.store(1, Ordering::SeqCst);
    if !comes(other) {
        return Ok(false);
    }
    socket.write_all(text)?;
    Ok(true)
}

// Whether a mark is set before it was looked at so often.
fn comes(mark: &AtomicU32) -> bool {
    for _ in 0..LOOKS {
        if mark.load(Ordering::SeqCst) != 0 {
            return true;
        }
    }
    false
}

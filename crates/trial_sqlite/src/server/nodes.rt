// Storage nodes that the program plays itself: one listener, which stands for each address of this machine.
use anyhow::{Result, bail};
use std::io::{Read, Write};
use std::net::{Ipv4Addr, Net, SocketAddr, SocketAddrV4, TcpListener, TcpStream};

// The byte of all pieces, and the one that the altering node has in its place.
const GOOD: u8 = 5;

const ALTERED: u8 = 6;

// How the address of the first node begins, which alters its bytes, and that of the second one, which has lost its pieces. The
// third part of an address is the node's number.
const LIAR: &str = "127.0.1.1:";

const LOSER: &str = "127.0.2.1:";

// The most bytes of a head.
const HEAD: usize = 4096;

// What the request that ends the nodes begins with.
const QUIT: &str = "QUIT";

/// The nodes' port.
#[derive(Drop)]
pub struct Port {
    listener: TcpListener,
    number: u16,
}

/// The pieces that the nodes were given to keep.
#[derive(Clone, Copy, Debug, PartialEq, Eq)]
pub struct Kept {
    pub good: u32,
    pub wrong: u32,
}

impl Port {
    /// A port of all addresses of this machine.
    pub fn bound(rt: &HostRuntime) -> Result<Port> {
        let at = SocketAddr::V4(SocketAddrV4::new(Ipv4Addr::UNSPECIFIED, 0));
        let listener = rt.bind(at)?;
        let number = listener.local_addr()?.port();
        Ok(Port { listener, number })
    }

    /// Its number.
    pub fn number(&self) -> u16 {
        self.number
    }

    /// Serves asks, one at a time, until one says that it is the last.
    pub fn serve(&self) -> Option<Kept> {
        let mut kept = Kept { good: 0, wrong: 0 };
        for _ in 0..u64::MAX {
            let (mut stream, _) = self.listener.accept().ok()?;
            // a connection that fails is one ask without an answer
            match answer(&mut stream, &mut kept) {
                Ok(true) => return Some(kept),
                Ok(false) | Err(_) => {}
            }
        }
        None
    }
}

/// Ends the nodes of a port.
pub fn quit(rt: &HostRuntime, port: u16) -> Result<()> {
    let at = SocketAddr::V4(SocketAddrV4::new(Ipv4Addr::LOCALHOST, port));
    let stream: TcpStream = rt.connect(at)?;
    let mut output = &stream;
    output.write_all(b"QUIT\r\n\r\n")?;
    Ok(())
}

// Reads a head, up to its empty line.
fn read_head(stream: &mut TcpStream, head: &mut [u8; HEAD]) -> Result<usize> {
    for at in 0..HEAD {
        let mut byte = [0u8; 1];
        stream.read_exact(&mut byte)?;
        head[at] = byte[0];
        if head[..at + 1].ends_with(b"\r\n\r\n") {
            return Ok(at + 1);
        }
    }
    bail!("too long a head");
}

// What stands in the line of this name, as a number.
fn number_of(head: &str, name: &str) -> Result<usize> {
    for line in head.lines() {
        if let Some(value) = line.strip_prefix(name) {
            return Ok(value.trim().parse::<usize>()?);
        }
    }
    bail!("no such line");
}

// Whether the head asks the node of this address.
fn asks(head: &str, address: &str) -> bool {
    head.lines().any(|line| line
        .strip_prefix("host: ")
        .is_some_and(|host| host.starts_with(address)))
}

// Answers one ask, or says that it is the last.
fn answer(stream: &mut TcpStream, kept: &mut Kept) -> Result<bool> {
    let mut bytes = [0u8; HEAD];
    let len = read_head(stream, &mut bytes)?;
    let Some(Ok(head)) = bytes.get(..len).map(str::from_utf8) else {
        bail!("no text");
    };
    if head.starts_with(QUIT) {
        return Ok(true);
    }
    if head.starts_with("PUT") {
        keep(stream, number_of(head, "content-length:")?, kept)?;
    } else if asks(head, LOSER) {
        stream.write_all(b"HTTP/1.1 404 Not Found\r\ncontent-length: 0\r\n\r\n")?;
    } else {
        let byte = if asks(head, LIAR) { ALTERED } else { GOOD };
        give(stream, number_of(head, "x-length:")?, byte)?;
    }
    Ok(false)
}

// Takes so many bytes of a piece.
fn keep(stream: &mut TcpStream, len: usize, kept: &mut Kept) -> Result<()> {
    let mut good = true;
    for _ in 0..len {
        let mut byte = [0u8; 1];
        stream.read_exact(&mut byte)?;
        good = good && byte[0] == GOOD;
    }
    if good {
        kept.good = kept.good.saturating_add(1);
    } else {
        kept.wrong = kept.wrong.saturating_add(1);
    }
    stream.write_all(b"HTTP/1.1 200 OK\r\ncontent-length: 0\r\n\r\n")?;
    Ok(())
}

// Gives so many bytes of a piece.
fn give(stream: &mut TcpStream, len: usize, byte: u8) -> Result<()> {
    stream.write_all(b"HTTP/1.1 200 OK\r\ncontent-length: ")?;
    write!(stream, "{len}\r\n\r\n")?;
    for _ in 0..len {
        stream.write_all(&[byte])?;
    }
    Ok(())
}

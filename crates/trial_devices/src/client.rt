// Both sides of a connection.
use anyhow::{Result, bail};
use sat_base::{Came, Lane};
use sat_devices::{TcpLane, TcpLink};
use std::alloc::Global;
use std::io::{Read, Write};
use std::net::{Ipv4Addr, Net, Shutdown, SocketAddr, SocketAddrV4, TcpStream};
use std::time::Duration;

// How many seconds a client waits for an answer before it gives up.
const PATIENCE: u64 = 20;

/// A whole request.
pub const REQUEST: &[u8; 18] = b"GET / HTTP/1.1\r\n\r\n";

/// The address of a port of this machine.
pub fn address(port: u16) -> SocketAddr {
    SocketAddr::V4(SocketAddrV4::new(Ipv4Addr::LOCALHOST, port))
}

/// A client that is connected to a port.
pub fn connected(rt: &HostRuntime, port: u16) -> Result<TcpStream> {
    let stream = rt.connect(address(port))?;
    stream.set_read_timeout(Some(Duration::from_secs(PATIENCE)))?;
    Ok(stream)
}

/// Sends a text, and stays.
pub fn send(stream: &TcpStream, text: &[u8]) -> Result<()> {
    let mut output = stream;
    output.write_all(text)?;
    Ok(())
}

/// Sends a text, and says that there is no more.
pub fn say(stream: &TcpStream, text: &[u8]) -> Result<()> {
    send(stream, text)?;
    stream.shutdown(Shutdown::Write)?;
    Ok(())
}

/// What comes to a client up to the end.
pub fn hear(alloc: Global, stream: &TcpStream) -> Result<Vec<u8>> {
    let mut input = stream;
    let mut bytes = Vec::new(alloc);
    input.read_to_end(&mut bytes)?;
    Ok(bytes)
}

/// The next connection of a lane.
pub fn next_of(lane: &mut TcpLane<HostRuntime>) -> Result<TcpLink<HostRuntime>> {
    match lane.next() {
        Came::Conn(link) => Ok(link),
        Came::Ended | Came::Failed => bail!("no connection came"),
    }
}

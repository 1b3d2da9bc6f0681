// Orders that are offered to a satellite over HTTP.
use crate::client::address;
use crate::hurried::Hurried;
use anyhow::{Result, bail};
use sat_base::NodeId;
use std::io::{Read, Write};
use std::net::{Net, TcpListener, TcpStream};
use std::thread;
use std::thread::Threads;
use std::time::{Clock, Duration, Instant};
use stor_base::{Offered, Settler};
use stor_devices::HttpSettler;
use stor_wire::Account;

const ORDER: [u8; 123] = [5; 123];

const DONE: &str = "HTTP/1.1 200 OK\r\ncontent-length: 2\r\n\r\n{}";

const SPENT: &str = "HTTP/1.1 409 Conflict\r\ncontent-length: 12\r\n\r\n{\"number\":3}";

const LATER: &str = "HTTP/1.1 409 Conflict\r\ncontent-length: 13\r\n\r\n{\"number\":27}";

const HALF: &str = "HTTP/1.1 200 OK\r\ncontent-length: 2\r\n\r\n{";

fn account(port: u16) -> Account {
    Account {
        node: NodeId(7),
        key: [1; 32],
        port,
    }
}

// A port at which this program listens.
fn listening(rt: &HostRuntime) -> Result<(TcpListener, u16)> {
    let listener = rt.bind(address(0))?;
    let port = listener.local_addr()?.port();
    Ok((listener, port))
}

// Reads a request up to the end of its body, which is the first closing brace. Whether it offers an order for node 7.
fn hears(stream: &mut TcpStream) -> bool {
    let mut buf = [0u8; 4096];
    let mut len = 0usize;
    for _ in 0..u64::MAX {
        let rest = buf.get_mut(len..).unwrap_or(&mut []);
        match stream.read(rest) {
            Ok(count) if count > 0 => len = len.saturating_add(count),
            _ => return false,
        }
        let text = buf.get(..len).unwrap_or(&[]);
        if text.ends_with(b"}") {
            return text.starts_with(b"POST /n/7/settle HTTP/1.1\r\n");
        }
    }
    false
}

// Answers one request. Whether it offers an order.
fn answer(listener: TcpListener, text: &str) -> bool {
    let Ok((mut stream, _)) = listener.accept() else {
        return false;
    };
    let is_offer = hears(&mut stream);
    stream.write_all(text.as_bytes()).is_ok() && is_offer
}

// Hears one request, and says nothing until its client goes.
fn stay_silent(listener: TcpListener) -> bool {
    let Ok((mut stream, _)) = listener.accept() else {
        return false;
    };
    let is_offer = hears(&mut stream);
    matches!(stream.read(&mut [0u8; 1]), Ok(0)) && is_offer
}

// What an offer comes to that is answered by a text, how many failed, and whether the other side heard an offer.
fn answered(
    rt: &HostRuntime,
    threads: &impl Threads,
    text: &'static str,
) -> Result<(Offered, u64, bool)> {
    let (listener, port) = listening(rt)?;
    let Ok(other) = thread::spawn(threads, move || answer(listener, text)) else {
        bail!("no thread");
    };
    let mut settler = HttpSettler::of(*rt, account(port));
    let offered = settler.offer(rt.alloc(), &ORDER);
    Ok((offered, settler.faults(), other.join(threads)))
}

/// Answers that are whole, one that isn't, and none.
pub fn answers(rt: &HostRuntime, threads: &impl Threads) -> Result<()> {
    let done = answered(rt, threads, DONE)?;
    let spent = answered(rt, threads, SPENT)?;
    let later = answered(rt, threads, LATER)?;
    let half = answered(rt, threads, HALF)?;
    let none = answered(rt, threads, "")?;
    println!(rt; "settler: {done:?}, {spent:?}, {later:?}; cut off {half:?}, {none:?}")?;
    Ok(())
}

/// A port at which nobody listens, twice.
pub fn nobody(rt: &HostRuntime) -> Result<()> {
    let (listener, port) = listening(rt)?;
    drop(listener);
    let mut settler = HttpSettler::of(*rt, account(port));
    let first = (settler.offer(rt.alloc(), &ORDER), settler.faults());
    let second = (settler.offer(rt.alloc(), &ORDER), settler.faults());
    println!(rt; "nobody listens: {first:?}, {second:?}")?;
    Ok(())
}

/// A satellite that says nothing: to a settler by whose clock a second is left of thirty, and by whose clock none is.
pub fn silence(rt: &HostRuntime, threads: &impl Threads) -> Result<()> {
    let (listener, port) = listening(rt)?;
    let Ok(other) = thread::spawn(threads, move || stay_silent(listener)) else {
        bail!("no thread");
    };
    let hurried = Hurried::new(*rt, 29);
    let mut settler = HttpSettler::of(&hurried, account(port));
    let start = Instant::now(rt)?;
    let first = (settler.offer(rt.alloc(), &ORDER), settler.faults());
    let spent = start.elapsed(rt)?;
    let in_time = spent > Duration::from_millis(900) && spent < Duration::from_secs(5);
    let heard = other.join(threads);
    let (listener, port) = listening(rt)?;
    let late = Hurried::new(*rt, 30);
    let mut settler = HttpSettler::of(&late, account(port));
    let second = (settler.offer(rt.alloc(), &ORDER), settler.faults());
    drop(listener);
    println!(rt; "silent satellite: {first:?} {in_time} {heard}, out of time {second:?}")?;
    Ok(())
}

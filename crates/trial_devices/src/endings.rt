// How connections end.
use crate::client::{REQUEST, connected, hear, next_of, say, send};
use anyhow::Result;
use sat_base::{Lane, Sink, Source};
use sat_devices::TcpLane;
use std::time::{Duration, Instant};

/// Bytes of the client that nobody read don't lose the answer.
pub fn unread(rt: &HostRuntime) -> Result<()> {
    let mut lane = TcpLane::listen(*rt, 0)?;
    let client = connected(rt, lane.port())?;
    say(&client, &[b'a'; 30_000])?;
    let mut link = next_of(&mut lane)?;
    let read = link.read(&mut [0u8; 10]);
    let put = link.put(&[b'b'; 1000]);
    lane.back(link);
    let told = hear(rt.alloc(), &client)?.as_slice() == [b'b'; 1000].as_slice();
    println!(rt; "unread: {read:?}, {put:?} {told}")?;
    Ok(())
}

/// A client that stays has its answer, and the lane is given back soon.
pub fn stays(rt: &HostRuntime) -> Result<()> {
    let mut lane = TcpLane::listen(*rt, 0)?;
    let client = connected(rt, lane.port())?;
    send(&client, REQUEST)?;
    let mut link = next_of(&mut lane)?;
    let read = link.read(&mut [0u8; 64]);
    let put = link.put(b"answer");
    let start = Instant::now(rt)?;
    lane.back(link);
    let soon = start.elapsed(rt)? < Duration::from_secs(8);
    let told = hear(rt.alloc(), &client)?.as_slice() == b"answer".as_slice();
    println!(rt; "stays: {read:?}, {put:?} {told}, {soon}")?;
    Ok(())
}

/// A client that doesn't read its answer, and resets the connection.
pub fn reset(rt: &HostRuntime) -> Result<()> {
    let mut lane = TcpLane::listen(*rt, 0)?;
    let client = connected(rt, lane.port())?;
    send(&client, REQUEST)?;
    let mut link = next_of(&mut lane)?;
    let read = link.read(&mut [0u8; 64]);
    let put = link.put(b"answer");
    // So the answer has come when the client goes.
    client.peek(&mut [0u8; 1])?;
    drop(client);
    let behind = link.read(&mut [0u8; 64]);
    let more = link.put(b"more");
    println!(rt;
        "reset: {read:?}, {put:?}, {behind:?} {}, {more:?} {}",
        link.read_faults(),
        link.write_faults()
    )?;
    lane.back(link);
    Ok(())
}

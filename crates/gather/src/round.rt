// A round of asks, all at once on this thread.
ghost use Rattle.std.specs.Prelude.{All, IfOk};
ghost use Rattle.std.specs.List.{AllZip};
ghost use Rattle.gather.specs.Asks.{Asks};
ghost use Rattle.gather.specs.Gathered.{GivesEach};
ghost use Rattle.gather.specs.Rounds.{CanHear, MayHear, FetchesFor, FetchComes, PutComes, Starts};
ghost use Rattle.node_wire.specs.Readings.{IsOpen, question_of};

use crate::asking::Asking;
use crate::gather::Gather;
use crate::patience::Patience;
use crate::timed::Timed;
use bytes::BytesMut;
use node_wire::{Outcome, Reading, address, fetch_request, put_request};
use sat_base::Ask;
use std::alloc::AllocGlobal;
use std::io;
use std::io::ErrorKind;
use std::net::Net;
use std::random::RandomSource;
use std::sync::Wait;
use std::time::{Clock, Duration};
use tokio::net::TcpStream;
use tokio::runtime::LocalRuntime;
use tokio::time::Timeout;
use tokio::time::error::Elapsed;

/// What an ask came to, with the reading of its answer; or that its time was up.
pub(crate) type Heard = Result<(Outcome, Reading), Elapsed>;

/// The same, and the moment at which it did.
pub(crate) type HeardAt = (Heard, Duration);

// An ask whose end is timed.
type Fetching<'a, R> = Timed<'a, Timeout<Asking>, R>;

/// Asks for all pieces at once, each for as long as the patience with its order lasts, which is spent so. What each ask
/// came to stands at its place. An error is that of the runtime, or says that memory runs out.
pub(crate) fn fetch_round<R>(
    rt: &R,
    patience: &mut Patience,
    asked: &[Ask],
) -> io::Result<Vec<HeardAt>>
where
    R: Wait + Clock + Net + RandomSource + AllocGlobal,
    ensures { IfOk result (λ heard. AllZip FetchComes asked.now heard.items) }
{
    let begun = rt.monotonic()?;
    let mut runtime = LocalRuntime::new(rt)?;
    let parts = fetches(rt, &runtime, patience, asked)?;
    let heard = all_heard(rt, &mut runtime, parts)?;
    patience.spend(rt.alloc(), begun, asked, &heard)?;
    Ok(heard)
}

/// Asks a node to keep a piece, for so long at most. The errors are those of `fetch_round`.
pub(crate) fn put_round<R>(rt: &R, limit: Duration, ask: &Ask, piece: &[u8]) -> io::Result<Heard>
where
    R: Wait + Clock + Net + RandomSource + AllocGlobal,
    ensures { IfOk result PutComes }
{
    let mut runtime = LocalRuntime::new(rt)?;
    let Ok(request) = put_request(rt.alloc(), ask, piece) else {
        return Err(no_memory());
    };
    let Ok(reading) = Reading::of_put(rt.alloc()) else {
        return Err(no_memory());
    };
    let part = start(rt, &runtime, limit, ask, request, reading)?;
    runtime.block_on(rt, part)
}

fn no_memory() -> io::Error {
    io::Error::from(ErrorKind::OutOfMemory)
}

// The fetches, each of them begun.
fn fetches<'a, R>(
    rt: &'a R,
    runtime: &LocalRuntime,
    patience: &Patience,
    asked: &[Ask],
) -> io::Result<Vec<Fetching<'a, R>>>
where
    R: Clock + Net + RandomSource + AllocGlobal,
    ensures { IfOk result (λ parts. AllZip FetchesFor asked.now parts.items) }
{
    let mut parts = Vec::with_capacity(rt.alloc(), asked.len())?;
    for ask in asked {
        let part = fetch(rt, runtime, patience.left(&ask.order), ask)?;
        parts.push_reserved(part);
    }
    Ok(parts)
}

fn fetch<'a, R>(
    rt: &'a R,
    runtime: &LocalRuntime,
    limit: Duration,
    ask: &Ask,
) -> io::Result<Fetching<'a, R>>
where
    R: Clock + Net + RandomSource + AllocGlobal,
    ensures { IfOk result (FetchesFor ask.now) }
{
    let Ok(request) = fetch_request(rt.alloc(), ask) else {
        return Err(no_memory());
    };
    let Ok(reading) = Reading::new(rt.alloc(), ask.len) else {
        return Err(no_memory());
    };
    let part = start(rt, runtime, limit, ask, request, reading)?;
    Ok(Timed::new(rt, part))
}

// Begins an ask, which ends at its limit.
fn start<R>(
    rt: &R,
    runtime: &LocalRuntime,
    limit: Duration,
    ask: &Ask,
    request: Vec<u8>,
    reading: Reading,
) -> io::Result<Timeout<Asking>>
where
    R: Clock + Net + RandomSource + AllocGlobal,
    requires { IsOpen reading }
    ensures { IfOk result (Starts (question_of reading)) }
{
    let asking = begin(rt, runtime, limit, ask, request, reading);
    runtime.handle().time().timeout(rt, limit, asking)
}

// An ask, which isn't made where it has no time.
fn begin<R>(
    rt: &R,
    runtime: &LocalRuntime,
    limit: Duration,
    ask: &Ask,
    request: Vec<u8>,
    reading: Reading,
) -> Asking
where
    R: Net,
    requires { IsOpen reading }
    ensures { Asks (question_of reading) result }
{
    if limit.is_zero() {
        return Asking::unasked(reading);
    }
    let connect = TcpStream::connect(rt, address(ask), runtime.handle().reactor());
    Asking::new(connect, BytesMut::from(request), reading)
}

// Waits until each ask is over.
fn all_heard<R>(
    rt: &R,
    runtime: &mut LocalRuntime,
    parts: Vec<Fetching<'_, R>>,
) -> io::Result<Vec<HeardAt>>
where
    R: Wait + Clock + Net + RandomSource + AllocGlobal,
    requires { All CanHear parts.items }
    ensures { IfOk result (λ heard. GivesEach MayHear parts.entry.items heard.items) }
{
    match Gather::new(rt.alloc(), parts) {
        Ok(whole) => runtime.block_on(rt, whole),
        Err(_) => Err(no_memory()),
    }
}

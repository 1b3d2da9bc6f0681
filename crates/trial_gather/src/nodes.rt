// Asks over loopback, all at once.
use crate::node::{Manner, ask_at, follow, listen, serve};
use gather::TokioNodes;
use sat_base::{Fetched, Nodes, Stored};
use std::net::TcpListener;
use std::sync::atomic::AtomicU32;
use std::test::Fail;
use std::thread;
use std::time::{Duration, Instant};

/// An answer with a share of two bytes.
pub const SHARE: &[u8] = b"HTTP/1.1 200 OK\r\ncontent-length: 2\r\n\r\n\x01\x02";

/// Whether it is that share.
pub fn is_share(fetched: &Fetched) -> bool {
    matches!(fetched, Fetched::Share(bytes) if bytes.as_slice() == [1, 2].as_slice())
}

// What an answer is, beside `SHARE`.
fn name_of(fetched: &Fetched) -> &'static str {
    match fetched {
        Fetched::Share(bytes) if bytes.is_empty() => "longer than asked",
        Fetched::Share(_) if is_share(fetched) => "share",
        Fetched::Share(_) => "another share",
        Fetched::Missing => "missing",
        Fetched::NoAnswer => "no answer",
        Fetched::NoMemory => "no memory",
    }
}

#[test]
fn the_first_answers_once_the_second_was_asked(rt: HostRuntime) -> Result<(), Fail> {
    let (a, a_port) = listen(&rt)?;
    let (b, b_port) = listen(&rt)?;
    let (a_asked, b_asked) = (AtomicU32::new(0), AtomicU32::new(0));
    let asks = [ask_at(a_port, 0, 2), ask_at(b_port, 1, 2)];
    let mut nodes = TokioNodes::new(rt);
    let alloc = rt.alloc();
    let (host, at, bt, aa, bb, asked, net) = (&rt, &a, &b, &a_asked, &b_asked, &asks, &mut nodes);
    let (followed, (said, answers)) = thread::join(
        host,
        move || follow(at, SHARE, aa, bb),
        move || thread::join(
            host,
            move || follow(bt, SHARE, bb, bb),
            move || net.fetch_all(alloc, asked),
        ),
    );
    assert!(rt; followed? && said?);
    let answers = answers?;
    assert_eq!(rt; answers.len(), 2);
    for answer in answers.as_slice() {
        assert!(rt; is_share(answer));
    }
    assert_eq!(rt; nodes.faults(), 0);
    Ok(())
}

#[test]
fn the_second_answers_once_the_first_was_asked(rt: HostRuntime) -> Result<(), Fail> {
    let (a, a_port) = listen(&rt)?;
    let (b, b_port) = listen(&rt)?;
    let (a_asked, b_asked) = (AtomicU32::new(0), AtomicU32::new(0));
    let asks = [ask_at(b_port, 0, 2), ask_at(a_port, 1, 2)];
    let mut nodes = TokioNodes::new(rt);
    let alloc = rt.alloc();
    let (host, at, bt, aa, bb, asked, net) = (&rt, &a, &b, &a_asked, &b_asked, &asks, &mut nodes);
    let (followed, (said, answers)) = thread::join(
        host,
        move || follow(at, SHARE, aa, bb),
        move || thread::join(
            host,
            move || follow(bt, SHARE, bb, bb),
            move || net.fetch_all(alloc, asked),
        ),
    );
    assert!(rt; followed? && said?);
    let answers = answers?;
    assert_eq!(rt; answers.len(), 2);
    for answer in answers.as_slice() {
        assert!(rt; is_share(answer));
    }
    assert_eq!(rt; nodes.faults(), 0);
    Ok(())
}

#[test]
fn answers_come_in_any_form(rt: HostRuntime) -> Result<(), Fail> {
    let (listener, port) = listen(&rt)?;
    let alloc = rt.alloc();
    for (manner, text, len, want, faults) in [
        (Manner::Says, SHARE, 2, "share", 0),
        (Manner::Spells, SHARE, 2, "share", 0),
        (Manner::Says, SHARE, 1, "longer than asked", 0),
        (
            Manner::Says,
            b"HTTP/1.1 404 Not Found\r\n\r\n".as_slice(),
            2,
            "missing",
            0,
        ),
        // No body, another status, and nothing.
        (
            Manner::Says,
            b"HTTP/1.1 200 OK\r\ncontent-length: 2\r\n\r\n".as_slice(),
            2,
            "no answer",
            1,
        ),
        (
            Manner::Says,
            b"HTTP/1.1 503 Service Unavailable\r\n\r\n".as_slice(),
            2,
            "no answer",
            1,
        ),
        (Manner::Says, b"".as_slice(), 2, "no answer", 1),
    ] {
        let ask = ask_at(port, 3, len);
        let mut nodes = TokioNodes::new(rt);
        let (host, at, asked, net) = (&rt, &listener, &ask, &mut nodes);
        let (served, answer) = thread::join(
            host,
            move || serve(at, 0, manner, text),
            move || net.fetch(alloc, asked),
        );
        served?;
        assert_eq!(rt; name_of(&answer), want);
        assert_eq!(rt; nodes.faults(), faults);
    }
    Ok(())
}

#[test]
fn silence_and_a_closed_port_are_counted(rt: HostRuntime) -> Result<(), Fail> {
    let (_silent, silent_port) = listen(&rt)?;
    let (closed, closed_port) = listen(&rt)?;
    drop(closed);
    let asks = [ask_at(silent_port, 0, 2), ask_at(closed_port, 1, 2)];
    let mut nodes = TokioNodes::within(rt, Duration::from_millis(300));
    let answers = nodes.fetch_all(rt.alloc(), &asks)?;
    assert_eq!(rt; answers.len(), 2);
    for answer in answers.as_slice() {
        assert!(rt; matches!(answer, Fetched::NoAnswer));
    }
    assert_eq!(rt; nodes.faults(), 2);
    assert_eq!(rt; nodes.put(rt.alloc(), &asks[0], b"ab"), Stored::NoAnswer);
    assert_eq!(rt; nodes.faults(), 3);
    assert!(rt; nodes.fetch_all(rt.alloc(), &[])?.is_empty());
    assert_eq!(rt; nodes.faults(), 3);
    Ok(())
}

#[test]
fn a_put_is_kept_by_status_200_alone(rt: HostRuntime) -> Result<(), Fail> {
    let (listener, port) = listen(&rt)?;
    let alloc = rt.alloc();
    let ask = ask_at(port, 3, 30_000);
    let piece = [9u8; 30_000];
    for (text, want, faults) in [
        (b"HTTP/1.1 200 OK\r\n\r\n".as_slice(), Stored::Kept, 0),
        (
            b"HTTP/1.1 507 Insufficient Storage\r\n\r\n".as_slice(),
            Stored::NoAnswer,
            1,
        ),
    ] {
        let mut nodes = TokioNodes::new(rt);
        let (host, at, asked, net, body) = (&rt, &listener, &ask, &mut nodes, &piece);
        let (served, stored) = thread::join(
            host,
            move || serve(at, 30_000, Manner::Says, text),
            move || net.put(alloc, asked, body),
        );
        served?;
        assert_eq!(rt; stored, want);
        assert_eq!(rt; nodes.faults(), faults);
    }
    Ok(())
}

// Serves each but every sixteenth, one after another. How many answered.
fn serve_most(nodes: &[TcpListener]) -> usize {
    let mut answered = 0usize;
    for (at, listener) in nodes.iter().enumerate() {
        if at % 16 == 0 {
            continue;
        }
        if serve(listener, 0, Manner::Says, SHARE).is_ok() {
            answered = answered.saturating_add(1);
        }
    }
    answered
}

#[test]
fn five_of_eighty_cost_one_limit(rt: HostRuntime) -> Result<(), Fail> {
    let alloc = rt.alloc();
    let mut listeners = Vec::with_capacity(alloc, 80)?;
    let mut asks = Vec::with_capacity(alloc, 80)?;
    for index in 0..80u8 {
        let (listener, port) = listen(&rt)?;
        listeners.push(listener)?;
        asks.push(ask_at(port, index, 2))?;
    }
    let mut nodes = TokioNodes::within(rt, Duration::from_secs(3));
    let (host, all, asked, net) = (&rt, &listeners, &asks, &mut nodes);
    let start = Instant::now(&rt)?;
    let (answered, answers) = thread::join(
        host,
        move || serve_most(all),
        move || net.fetch_all(alloc, asked),
    );
    let took = start.elapsed(&rt)?;
    let answers = answers?;
    assert_eq!(rt; answered, 75);
    assert_eq!(rt; answers.len(), 80);
    for (at, answer) in answers.as_slice().iter().enumerate() {
        assert_eq!(rt; is_share(answer), at % 16 != 0, "at {at}");
    }
    assert_eq!(rt; nodes.faults(), 5);
    // One limit, and not a second one.
    assert!(rt; took >= Duration::from_secs(3) && took < Duration::from_secs(6));
    Ok(())
}

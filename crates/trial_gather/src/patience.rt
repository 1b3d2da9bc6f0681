// How long nodes are asked with one order.
use crate::node::{Manner, ask_at, listen, serve, serve_late};
use crate::nodes::{SHARE, is_share};
use gather::TokioNodes;
use sat_base::{Ask, Nodes};
use std::alloc::Global;
use std::net::TcpListener;
use std::test::Fail;
use std::time::{Clock, Duration, Instant};
use std::{io, thread};

// The limit of an ask, and how long the slow node takes, in milliseconds: twelve of its answers take three limits.
const LIMIT: u64 = 800;

const PAUSE: u64 = 200;

// One more than these.
const WINDOWS: usize = 13;

// The index that the slow node is asked for last.
const LAST: u8 = 4;

// What the windows gave, and what two asks of the slow node behind them did.
#[derive(Drop)]
struct Course {
    slow: usize,
    fast: usize,
    // With the order of the windows, and how long it took.
    again: bool,
    took: Duration,
    // With another.
    other: bool,
}

// Serves a connection for each window, without a pause.
fn serve_fast(listener: &TcpListener) -> io::Result<()> {
    for _ in 0..WINDOWS {
        serve(listener, 0, Manner::Says, SHARE)?;
    }
    Ok(())
}

// Asks a slow and a fast node for their windows, each with an order of its own, and the slow one twice more.
fn ask_on<C: Clock, N: Nodes>(
    clock: &C,
    alloc: Global,
    nodes: &mut N,
    asks: &[Ask; 2],
) -> io::Result<Course> {
    let (mut slow, mut fast) = (0usize, 0usize);
    for _ in 0..WINDOWS {
        let Ok(answers) = nodes.fetch_all(alloc, asks) else {
            continue;
        };
        if let [first, second] = answers.as_slice() {
            slow = slow.saturating_add(is_share(first) as usize);
            fast = fast.saturating_add(is_share(second) as usize);
        }
    }
    let start = Instant::now(clock)?;
    let again = is_share(&nodes.fetch(alloc, &asks[0]));
    let took = start.elapsed(clock)?;
    let mut other = asks[0];
    other.index = LAST;
    other.order = [9; 123];
    Ok(Course {
        slow,
        fast,
        again,
        took,
        other: is_share(&nodes.fetch(alloc, &other)),
    })
}

#[test]
fn a_slow_node_has_three_limits_with_an_order(rt: HostRuntime) -> Result<(), Fail> {
    let (slow, slow_port) = listen(&rt)?;
    let (fast, fast_port) = listen(&rt)?;
    let alloc = rt.alloc();
    let mut asks = [ask_at(slow_port, 3, 2), ask_at(fast_port, 3, 2)];
    asks[1].order = [8; 123];
    let mut nodes = TokioNodes::within(rt, Duration::from_millis(LIMIT));
    let (host, a, b, asked, net) = (&rt, &slow, &fast, &asks, &mut nodes);
    let (late, (said, course)) = thread::join(
        host,
        move || serve_late(host, a, Duration::from_millis(PAUSE), b'0' + LAST, SHARE),
        move || thread::join(
            host,
            move || serve_fast(b),
            move || ask_on(host, alloc, net, asked),
        ),
    );
    late?;
    said?;
    let course = course?;
    assert!(rt; course.slow > 0 && course.slow < WINDOWS);
    assert_eq!(rt; course.fast, WINDOWS);
    assert!(rt; !course.again && course.took < Duration::from_millis(LIMIT / 2));
    assert!(rt; course.other);
    Ok(())
}

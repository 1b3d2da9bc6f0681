// Clocks, words, nodes, lanes, ticks and gates in memory.
use sat_base::{
    Ask, Beat, Came, Clock, Drawn, Fetched, Gate, Held, HoldGate, Items, Lane, MemClock, MemLane,
    MemLink, MemNodes, MemTicks, MemWords, NoMemory, NodeId, Nodes, OpenGate, Point, SegId, Stored,
    Ticks, Words,
};
use std::alloc::Global;

fn moments(alloc: Global) -> Result<[u64; 4], NoMemory> {
    let mut clock = MemClock::of(Vec::from_slice(alloc, &[1_772_323_200, 9])?);
    Ok([clock.now(), clock.now(), clock.now(), clock.now()])
}

#[test]
fn gives_its_moments_and_then_0(rt: HostRuntime) {
    assert_eq!(rt; moments(rt.alloc()), Ok([1_772_323_200, 9, 0, 0]));
}

// Four draws, of which the second is told to fail.
fn draws(alloc: Global) -> Result<[Drawn; 4], NoMemory> {
    let left = Vec::from_slice(alloc, &[10, 20])?;
    let failing = Vec::from_slice(alloc, &[2])?;
    let mut words = MemWords::of(left, failing);
    Ok([words.word(), words.word(), words.word(), words.word()])
}

#[test]
fn words_fail_where_they_are_told_and_at_their_end(rt: HostRuntime) {
    let want = [
        Drawn::Word(10),
        Drawn::Failed,
        Drawn::Word(20),
        Drawn::Failed,
    ];
    assert_eq!(rt; draws(rt.alloc()), Ok(want));
}

// An ask for some bytes of piece 3 of segment 5 at a node.
fn ask(node: u32, offset: u64, len: u64) -> Ask {
    Ask {
        node: NodeId(node),
        addr: 0x7f00_0001,
        port: 28967,
        segment: SegId(5),
        index: 3,
        offset,
        len,
        order: [0; 123],
    }
}

fn is_share(fetched: &Fetched, bytes: &[u8]) -> bool {
    match fetched {
        Fetched::Share(share) => share.as_slice() == bytes,
        Fetched::Missing | Fetched::NoAnswer | Fetched::NoMemory => false,
    }
}

fn misses(alloc: Global, nodes: &mut MemNodes) -> bool {
    nodes.fetch(alloc, &ask(7, 0, 9)) == Fetched::Missing
}

fn put(alloc: Global, nodes: &mut MemNodes, node: u32, bytes: &[u8; 3]) -> Stored {
    nodes.put(alloc, &ask(node, 0, 3), bytes)
}

fn puts(alloc: Global, nodes: &mut MemNodes) -> bool {
    let made = [
        put(alloc, nodes, 7, &[1, 2, 3]),
        put(alloc, nodes, 8, &[4, 5, 6]),
        put(alloc, nodes, 8, &[7, 8, 9]),
        put(alloc, nodes, 7, &[9, 8, 7]),
    ];
    let want = [Stored::Kept, Stored::NoAnswer, Stored::Kept, Stored::Kept];
    made == want && nodes.held().len() == 2 && nodes.asks().len() == 5
}

// Ranges by their first byte and length, and what is fetched of them.
static RANGES: [(u64, u64, &[u8]); 5] = [
    (0, 9, &[9, 8, 7]),
    (1, 1, &[8]),
    (2, 5, &[7]),
    (3, 1, &[]),
    (u64::MAX, 1, &[]),
];

fn fetches(alloc: Global, nodes: &mut MemNodes) -> bool {
    let mut right = true;
    for (offset, len, bytes) in &RANGES {
        let fetched = nodes.fetch(alloc, &ask(7, *offset, *len));
        right = right && is_share(&fetched, bytes);
    }
    right
}

// Puts and fetches, of which the third call is told to fail.
fn puts_and_fetches(alloc: Global) -> Result<bool, NoMemory> {
    let failing = Vec::from_slice(alloc, &[3])?;
    let mut nodes = MemNodes::of(alloc, Vec::new(alloc), failing);
    Ok(misses(alloc, &mut nodes) && puts(alloc, &mut nodes) && fetches(alloc, &mut nodes))
}

#[test]
fn fetches_what_was_put(rt: HostRuntime) {
    assert!(rt; puts_and_fetches(rt.alloc()) == Ok(true));
}

fn held(alloc: Global) -> Result<Held, NoMemory> {
    Ok(Held {
        node: NodeId(7),
        segment: SegId(5),
        index: 3,
        bytes: Items::of(Vec::from_slice(alloc, &[1, 2])?),
    })
}

// Nodes that hold a piece of two bytes, whose second call fails.
fn holding(alloc: Global) -> Result<MemNodes, NoMemory> {
    let held = vec![in alloc; held(alloc)?]?;
    let failing = Vec::from_slice(alloc, &[2])?;
    Ok(MemNodes::of(alloc, held, failing))
}

fn are_in_order(fetched: &[Fetched]) -> bool {
    match fetched {
        [first, second, third, last] => {
            is_share(first, &[1, 2])
                && *second == Fetched::NoAnswer
                && *third == Fetched::Missing
                && is_share(last, &[2])
        }
        _ => false,
    }
}

fn fetches_each(alloc: Global, nodes: &mut MemNodes, asks: &[Ask]) -> Result<bool, NoMemory> {
    let fetched = nodes.fetch_all(alloc, asks)?;
    Ok(are_in_order(fetched.as_slice()) && nodes.asks() == asks)
}

fn fetches_four(alloc: Global) -> Result<bool, NoMemory> {
    let mut nodes = holding(alloc)?;
    let asks = [ask(7, 0, 2), ask(7, 0, 2), ask(8, 0, 2), ask(7, 1, 2)];
    fetches_each(alloc, &mut nodes, &asks)
}

#[test]
fn fetches_all_in_order(rt: HostRuntime) {
    assert!(rt; fetches_four(rt.alloc()) == Ok(true));
}

fn link(alloc: Global, byte: u8) -> Result<MemLink, NoMemory> {
    let input = Vec::from_slice(alloc, &[byte])?;
    Ok(MemLink::of(alloc, input, Vec::new(alloc)))
}

fn links(alloc: Global) -> Result<Vec<MemLink>, NoMemory> {
    let mut links = Vec::new(alloc);
    for byte in [1, 2] {
        links.push(link(alloc, byte)?)?;
    }
    Ok(links)
}

// Which wait was answered by what: a connection, a failure, the end.
fn came(lane: &mut MemLane) -> &'static str {
    match lane.next() {
        Came::Conn(_) => "conn",
        Came::Failed => "failed",
        Came::Ended => "ended",
    }
}

// How many were given back, behind one that came and was given back.
fn given_back(lane: &mut MemLane) -> usize {
    match lane.next() {
        Came::Conn(link) => lane.back(link),
        Came::Failed | Came::Ended => {}
    }
    lane.done().len()
}

// A lane of two links, whose second wait fails.
fn lane(alloc: Global) -> Result<MemLane, NoMemory> {
    let failing = Vec::from_slice(alloc, &[2])?;
    MemLane::of(alloc, links(alloc)?, failing)
}

fn waits(lane: &mut MemLane) -> bool {
    let waits = [came(lane), came(lane), came(lane), came(lane)];
    waits == ["failed", "conn", "ended", "ended"]
}

fn hands_out(alloc: Global) -> Result<bool, NoMemory> {
    let mut lane = lane(alloc)?;
    Ok(given_back(&mut lane) == 1 && waits(&mut lane))
}

#[test]
fn a_lane_hands_out_its_links_and_takes_them_back(rt: HostRuntime) {
    assert!(rt; hands_out(rt.alloc()) == Ok(true));
}

#[test]
fn ticks_come_and_end(rt: HostRuntime) {
    let mut ticks = MemTicks::of(2);
    let beats = [ticks.next(), ticks.next(), ticks.next(), ticks.next()];
    let want = [Beat::Tick, Beat::Tick, Beat::Ended, Beat::Ended];
    assert_eq!(rt; beats, want);
}

#[test]
fn a_gate_holds_until_the_other_point_was_passed(rt: HostRuntime) {
    OpenGate::of().pass(Point::AuditFetch);
    let hold = Point::SessionRead { lane: 1 };
    let gate = HoldGate::of(hold, Point::AuditFetch);
    gate.pass(Point::SessionRead { lane: 0 });
    gate.pass(Point::AuditFetch);
    gate.pass(hold);
    let alone = HoldGate::of(hold, Point::AuditFetch);
    alone.pass(hold);
    assert!(rt; !gate.ran_out() && alone.ran_out());
}

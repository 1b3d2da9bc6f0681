// The rows of the stores that are asked.
ghost use Rattle.std.specs.Prelude.{◌≡◌, IfOk};
ghost use Rattle.segment_core.specs.Places.{IsOffer};

use anyhow::{Result, bail};
use node_registry::{Node, Status};
use order_limits::Action;
use record_rows::{
    write_containment, write_customer, write_marks, write_node, write_segment, write_settings,
    write_settled, write_tariff,
};
use sat_base::{
    At, Caps, Change, Containment, Customer, CustomerId, Hour, Items, Marks, Moment, Month, NodeId,
    Rates, Scheme, SegId, Serial, Settings, Tariff,
};
use segment_core::Segment;
use settlement::SettledRow;
use std::alloc::{AllocError, Global};

/// The secret of every store here.
pub(crate) const SECRET: [u8; 32] = [7; 32];

/// The bytes of a segment, which are 64 MiB.
pub(crate) const LEN: u64 = 67_108_864;

/// The bytes that may be moved under an order's limit.
pub(crate) const AMOUNT: u64 = 4096;

const CUSTOMERS: u64 = 100;

const PIECES: u8 = 80;

// One segment in a hundred has so few pieces that it needs repair.
const FEW: u8 = 30;

/// January 2026.
pub(crate) const MONTH: u32 = 24312;

/// A moment in it.
pub(crate) const NOW: u64 = 1_768_000_000;

/// How much a store holds, and how many calls of each kind it is asked.
#[derive(Clone, Copy)]
pub(crate) struct Size {
    pub segments: u64,
    pub rows: u64,
    /// Each has a subnet of its own.
    pub nodes: u64,
    pub calls: u64,
}

/// The moment of every record and call.
pub(crate) fn now() -> Moment {
    Moment::of(NOW)
}

/// A node for each number, of at most 65536.
pub(crate) fn node_of(size: Size, number: u64) -> NodeId {
    let place = number.checked_rem(size.nodes).unwrap_or(0);
    NodeId((place % 65_536) as u32 + 1)
}

/// The customer that a segment belongs to.
pub(crate) fn customer_of(segment: u64) -> CustomerId {
    CustomerId((segment % CUSTOMERS) as u32 + 1)
}

/// The serial of a settled row by its place. They are even, so that one fits before and behind each.
pub(crate) fn serial_at(place: u64) -> u64 {
    place.saturating_add(1).saturating_mul(2)
}

fn settings() -> Result<Settings> {
    let Ok(scheme) = Scheme::check(29, 35, 80, 110, 256) else {
        bail!("no scheme");
    };
    let caps = Caps {
        nodes: 65_536,
        customers: 65_536,
        segments: 262_144,
        settled: 4_194_304,
        tallies: 4_194_304,
        statements: 1_048_576,
    };
    Ok(Settings {
        secret: SECRET,
        scheme,
        vet: 100,
        fresh: 5,
        caps,
        first_month: Month(MONTH),
    })
}

fn marks(size: Size) -> Marks {
    Marks {
        time: now(),
        segment: size.segments.saturating_add(1),
        serial: 1 << 40,
        plan: 1,
        month: Month(MONTH),
        hour: Hour(0),
    }
}

// The node that leaves, by its place.
const LEAVING: u64 = 100;

// One node in ten isn't vetted yet. The last one that owes a share is about to be disqualified.
fn node(size: Size, place: u64) -> Node {
    let id = node_of(size, place);
    let is_last = place == size.calls.saturating_add(1);
    Node {
        alpha: if is_last { 6_000 } else { 10_000 },
        beta: if is_last { 3_999 } else { 0 },
        passes: if place % 10 == 0 { 0 } else { 100 },
        status: if place == LEAVING {
            Status::Exiting
        } else {
            Status::Active
        },
        ..Node::joining(id, id.0.wrapping_mul(256), 28967, 1 << 50, now())
    }
}

// A node owes the first share of a segment.
fn containment(size: Size, number: u64) -> Containment {
    Containment {
        node: node_of(size, number),
        segment: SegId(number),
        index: 0,
        stripe: 0,
        expect: [0; 32],
        tries: 0,
    }
}

fn customer(place: u64) -> Customer {
    Customer {
        id: customer_of(place),
        added: now(),
    }
}

// The piece of an index. Those of a segment lie on consecutive nodes.
fn piece(size: Size, segment: u64, index: u8) -> At
    ensures { result.index ≡ index }
{
    At {
        index,
        node: node_of(size, segment.wrapping_add(u64::from(index))),
    }
}

// So many pieces of a segment.
fn pieces(alloc: Global, size: Size, segment: u64, count: u8) -> Result<Vec<At>, AllocError>
    ensures { IfOk result (λ pieces. IsOffer count pieces.items) }
{
    let mut pieces = Vec::with_capacity(alloc, count as usize)?;
    for index in 0..count {
        pieces.push(piece(size, segment, index))?;
    }
    Ok(pieces)
}

// A live segment.
fn segment(alloc: Global, size: Size, id: u64) -> Result<Segment, AllocError> {
    let count = if id % 100 == 0 { FEW } else { PIECES };
    let pieces = pieces(alloc, size, id, count)?;
    Ok(Segment {
        id: SegId(id),
        customer: customer_of(id),
        len: LEN,
        version: 1,
        pieces: Items::of(pieces),
    })
}

fn settled(size: Size, place: u64) -> SettledRow {
    SettledRow {
        serial: Serial(serial_at(place)),
        node: node_of(size, place),
        action: Action::Get,
        amount: AMOUNT,
        at: now(),
    }
}

fn tariff() -> Tariff {
    Tariff {
        from: Month(MONTH),
        rates: Rates {
            get: 20,
            audit: 10,
            repair: 10,
            storage: 2,
        },
    }
}

fn put_segment(alloc: Global, changes: &mut Vec<Change>, size: Size, id: u64) -> Result<()> {
    let segment = segment(alloc, size, id)?;
    if segment.pieces.len() > 128 {
        bail!("too many pieces");
    }
    Ok(changes.push(Change::Put(write_segment(alloc, &segment)?))?)
}

// Nodes, customers, segments and settled orders.
fn put_many(alloc: Global, changes: &mut Vec<Change>, size: Size) -> Result<()> {
    for place in 0..size.nodes {
        changes.push(Change::Put(write_node(alloc, &node(size, place))?))?;
    }
    for place in 0..CUSTOMERS {
        changes.push(Change::Put(write_customer(alloc, &customer(place))?))?;
    }
    for place in 0..size.segments {
        put_segment(alloc, changes, size, place.saturating_add(1))?;
    }
    for place in 0..size.rows {
        changes.push(Change::Put(write_settled(alloc, &settled(size, place))?))?;
    }
    Ok(())
}

/// What makes the rows of a store of this size, by rising keys. Its segments have the ids from 1 on. The nodes from the second
/// on, one for each call and one more, owe the first share of a segment each.
pub(crate) fn changes(alloc: Global, size: Size) -> Result<Vec<Change>> {
    let mut changes = Vec::new(alloc);
    changes.push(Change::Put(write_settings(alloc, &settings()?)?))?;
    changes.push(Change::Put(write_marks(alloc, &marks(size))?))?;
    put_many(alloc, &mut changes, size)?;
    for number in 1..size.calls.saturating_add(2) {
        let row = write_containment(alloc, &containment(size, number))?;
        changes.push(Change::Put(row))?;
    }
    changes.push(Change::Put(write_tariff(alloc, &tariff())?))?;
    Ok(changes)
}

// Places, and what nodes hold at them.
ghost use Rattle.std.specs.Prelude.{◌≡◌, ◌<◌, ◌≤◌, map, All, IfOk, IsTrue};
ghost use Rattle.bw_decode.specs.Near.{Rises};
ghost use Rattle.repair_core.specs.Indexes.{place_indexes};
ghost use Rattle.node_asks.specs.Asks.{at_of, pieces_of};

use order_limits::{Action, Keys, Limit, read_order};
use sat_base::{
    Ask, At, CustomerId, Held, Items, MemNodes, NoMemory, NodeId, Place, Scheme, SegId, Serial,
};
use std::alloc::Global;
use trial_indexes::{are_rising, indexes_of};

/// The segment that is spoken of.
pub const SEGMENT: SegId = SegId(8);

/// The scheme of these cases: two pieces rebuild a segment.
pub fn scheme(share: u16) -> Scheme
    requires { (1 ≤ share) × (share ≤ 1024) }
{
    Scheme {
        k: 2,
        m: 3,
        o: 4,
        n: 6,
        share,
    }
}

/// The satellite's keys.
pub fn keys() -> Keys {
    Keys::new([7; 32])
}

/// The place of the piece of an index, at the node of the next number.
pub fn place(index: u8) -> Place {
    Place {
        index,
        node: NodeId(u32::from(index) + 1),
        addr: 0x7f00_0001,
        port: 7000,
    }
}

/// Places of these indexes.
pub fn places(alloc: Global, indexes: &[u8]) -> Result<Vec<Place>, NoMemory> {
    Ok(indexes.iter().map(|index| place(*index)).collect(alloc)?)
}

fn piece_at(place: &Place) -> At
    ensures { result ≡ at_of place.now }
{
    At {
        index: place.index,
        node: place.node,
    }
}

fn pieces_of(alloc: Global, places: &[Place]) -> Result<Vec<At>, NoMemory>
    ensures { IfOk result (λ pieces. pieces.items ≡ map at_of places.now) }
{
    let pieces = places.iter().map(|place| piece_at(place)).collect(alloc)?;
    Ok(pieces)
}

/// The pieces at places.
pub fn pieces_at(alloc: Global, places: &[Place]) -> Result<Items<At>, NoMemory>
    ensures { IfOk result (λ pieces. pieces ≡ pieces_of places.now) }
{
    Ok(Items::of(pieces_of(alloc, places)?))
}

/// Whether the indexes of pieces rise and are below `n`.
pub fn rise(alloc: Global, pieces: &Items<At>, n: u8) -> Result<bool, NoMemory>
    ensures rising { IfOk result (λ fine. IsTrue fine → Rises (place_indexes pieces.now)) }
    ensures below { IfOk result (λ fine. IsTrue fine → All (λ index. index < n) (place_indexes pieces.now)) }
{
    let indexes = indexes_of(alloc, pieces.as_slice())?;
    Ok(are_rising(indexes.as_slice(), n))
}

/// Nodes that hold the pieces of these indexes at their places, of which the calls of these numbers fail.
pub fn nodes(alloc: Global, held: &[(u8, &[u8])], failing: &[u64]) -> Result<MemNodes, NoMemory> {
    let mut pieces = Vec::new(alloc);
    for (index, bytes) in held {
        pieces.push(Held {
            node: place(*index).node,
            segment: SEGMENT,
            index: *index,
            bytes: Items::of(Vec::from_slice(alloc, bytes)?),
        })?;
    }
    Ok(MemNodes::of(alloc, pieces, Vec::from_slice(alloc, failing)?))
}

/// What an ask is to be.
#[derive(Clone, Copy)]
pub struct Wanted {
    pub action: Action,
    pub offset: u64,
    pub len: u64,
    pub limit: u64,
}

// Whether an ask is of the wanted range, at the place of the index.
fn is_of(ask: &Ask, index: u8, wanted: Wanted) -> bool {
    let at = place(index);
    ask.node == at.node
        && ask.addr == at.addr
        && ask.port == at.port
        && ask.segment == SEGMENT
        && ask.index == index
        && ask.offset == wanted.offset
        && ask.len == wanted.len
}

// Whether a limit is as wanted, for the place of the index.
fn is_limit(limit: &Limit, index: u8, wanted: Wanted) -> bool {
    limit.action == wanted.action
        && limit.limit == wanted.limit
        && limit.node == place(index).node
        && limit.index == index
        && limit.segment == SEGMENT
        && limit.customer == CustomerId(0)
        && limit.serial == Serial(7)
        && limit.issued == 5
}

// Whether an ask has an order for the whole of the wanted limit.
fn is_ordered(ask: &Ask, index: u8, wanted: Wanted) -> bool {
    match read_order(&keys(), &ask.order) {
        Ok(order) => order.amount == wanted.limit && is_limit(&order.limit, index, wanted),
        Err(_) => false,
    }
}

/// Whether there is one ask for each of the indexes, as wanted.
pub fn are_asked(asks: &[Ask], indexes: &[u8], wanted: Wanted) -> bool {
    asks.len() == indexes.len()
        && asks.iter().zip(indexes).all(|(ask, index)| {
            is_of(ask, *index, wanted) && is_ordered(ask, *index, wanted)
        })
}

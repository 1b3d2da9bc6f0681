// A pending segment.
ghost use Rattle.std.specs.Prelude.{◌≡◌, IfOk};
ghost use Rattle.segment_core.specs.Places.{IsOffer};

use sat_base::{At, CustomerId, Items, NoMemory, NodeId, SegId};
use segment_core::Segment;
use std::alloc::Global;

/// The place of this index, on the node of the next number.
pub fn place(index: u8) -> At
    ensures { result.index ≡ index }
{
    At {
        index,
        node: NodeId(u32::from(index) + 1),
    }
}

// So many offered places.
fn offer(alloc: Global, n: u8) -> Result<Vec<At>, NoMemory>
    ensures { IfOk result (λ places. IsOffer n places.items) }
{
    let mut places = Vec::new(alloc);
    for index in 0..n {
        places.push(place(index))?;
    }
    Ok(places)
}

/// A pending segment with so many offered places.
pub fn pending(alloc: Global, n: u8) -> Result<Segment, NoMemory>
    ensures pending { IfOk result (λ segment. segment.version ≡ 0) }
    ensures offer { IfOk result (λ segment. IsOffer n segment.pieces) }
{
    let places = offer(alloc, n)?;
    Ok(Segment {
        id: SegId(8),
        customer: CustomerId(3),
        len: 7424,
        version: 0,
        pieces: Items::of(places),
    })
}

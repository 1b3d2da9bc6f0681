// Pieces and plans of repairs.
ghost use Rattle.std.specs.Prelude.{◌≡◌, IfOk};
ghost use Rattle.repair_core.specs.Indexes.{place_indexes};

use repair_core::RepairPlan;
use sat_base::{At, Items, Moment, NoMemory, NodeId, SegId, Serial, Share};
use std::alloc::Global;

/// Pieces, or shares of a window, each with its index.
pub type Pieces<'a> = &'a [(u8, &'a [u8])];

/// As owned shares.
pub fn shares(alloc: Global, pieces: Pieces) -> Result<Vec<Share>, NoMemory> {
    let mut shares = Vec::new(alloc);
    for (index, bytes) in pieces {
        let bytes = Items::of(Vec::from_slice(alloc, bytes)?);
        shares.push(Share {
            index: *index,
            bytes,
        })?;
    }
    Ok(shares)
}

/// Places of these indexes.
pub fn places(alloc: Global, indexes: &[u8]) -> Result<Items<At>, NoMemory>
    ensures { IfOk result (λ places. place_indexes places ≡ indexes.now) }
{
    let mut places = Vec::new(alloc);
    for index in indexes {
        places.push(At {
            index: *index,
            node: NodeId(7),
        })?;
    }
    Ok(Items::of(places))
}

/// A plan for a segment of `len` bytes.
pub fn plan(alloc: Global, len: u64, sources: &[u8], targets: &[u8]) -> Result<RepairPlan, NoMemory>
    ensures len { IfOk result (λ plan. plan.len ≡ len) }
    ensures sources { IfOk result (λ plan. place_indexes plan.sources ≡ sources.now) }
    ensures targets { IfOk result (λ plan. place_indexes plan.targets ≡ targets.now) }
{
    Ok(RepairPlan {
        plan: 9,
        segment: SegId(8),
        version: 1,
        serial: Serial(7),
        issued: Moment::of(5),
        len,
        sources: places(alloc, sources)?,
        targets: places(alloc, targets)?,
    })
}

/// No bytes, and no indexes.
pub const NONE: &[u8] = &[];

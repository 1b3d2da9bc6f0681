// The index of segments and nodes that are there already.
ghost use Rattle.std.specs.Prelude.{◌≡◌, [], IfOk};
ghost use Rattle.sat_base.specs.declared.ids.NodeId.{NodeId};
ghost use Rattle.rows.specs.Rows.{IsRising};
ghost use Rattle.segment_core.specs.Record.{segment_rank};
ghost use Rattle.segment_index.specs.Segments.{is_gone};

use crate::health::Limits;
use crate::index::SegmentIndex;
use sat_base::{NoMemory, NodeId};
use segment_core::Segment;
use std::alloc::Global;

impl SegmentIndex {
    /// These segments, which stand in the order of their ids, where these nodes no longer serve.
    pub fn of(
        alloc: Global,
        limits: Limits,
        segments: Vec<Segment>,
        gone: &[NodeId],
    ) -> Result<Self, NoMemory>
        requires { IsRising segment_rank segments.items }
        ensures rows { IfOk result (λ index. index.rows ≡ segments.items) }
        ensures limits { IfOk result (λ index. index.limits ≡ limits) }
        ensures gone { IfOk result (λ index. (node : NodeId) → is_gone index.gone node ≡ is_gone gone.now node) }
        ensures pending { IfOk result (λ index. index.pending ≡ []) }
    {
        let mut index = without_segments(alloc, limits, gone)?;
        for segment in segments {
            index.place(&segment)?;
            index.put(segment);
        }
        Ok(index)
    }
}

// No segments, where these nodes no longer serve.
fn without_segments(
    alloc: Global,
    limits: Limits,
    gone: &[NodeId],
) -> Result<SegmentIndex, NoMemory>
    ensures rows { IfOk result (λ index. index.rows ≡ []) }
    ensures limits { IfOk result (λ index. index.limits ≡ limits) }
    ensures gone { IfOk result (λ index. (node : NodeId) → is_gone index.gone node ≡ is_gone gone.now node) }
    ensures pending { IfOk result (λ index. index.pending ≡ []) }
{
    let mut index = SegmentIndex::new(alloc, limits);
    index.place_loss(gone.len())?;
    for node in gone {
        index.lose(*node);
    }
    index.refresh()?;
    Ok(index)
}

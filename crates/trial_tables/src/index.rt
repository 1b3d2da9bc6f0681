// Segments of three pieces, of which two rebuild them.
ghost use Rattle.std.specs.Prelude.{◌≡◌, ◌<◌, IfOk};
ghost use Rattle.rows.specs.Rows.{IsRising};
ghost use Rattle.segment_core.specs.Record.{segment_rank};

use sat_base::{At, CustomerId, Items, NoMemory, NodeId, SegId};
use segment_core::Segment;
use segment_index::{Limits, SegmentIndex};
use std::alloc::Global;

const LIMITS: Limits = Limits { k: 2, m: 3 };

fn place(index: u8, node: u32) -> At
    ensures { result.index ≡ index }
{
    At {
        index,
        node: NodeId(node),
    }
}

// A segment of this version with three pieces at these nodes.
fn segment(alloc: Global, id: u64, version: u64, nodes: [u32; 3]) -> Result<Segment, NoMemory>
    ensures { IfOk result (λ segment. segment.id.0 ≡ id) }
{
    let pieces = Vec::from_array(
        alloc,
        [place(0, nodes[0]), place(1, nodes[1]), place(2, nodes[2])],
    )?;
    Ok(Segment {
        id: SegId(id),
        customer: CustomerId(1),
        len: 100,
        version,
        pieces: Items::of(pieces),
    })
}

fn put(
    index: &mut SegmentIndex,
    alloc: Global,
    id: u64,
    version: u64,
    nodes: [u32; 3],
) -> Result<(), NoMemory> {
    let segment = segment(alloc, id, version, nodes)?;
    index.place(&segment)?;
    index.put(segment);
    Ok(())
}

// A node stops serving, and is counted.
fn lose(index: &mut SegmentIndex, node: u32) -> Result<(), NoMemory> {
    index.place_loss(1)?;
    index.lose(NodeId(node));
    index.refresh()
}

fn id(segment: Option<&Segment>) -> Option<u64> {
    segment.map(|segment| segment.id.0)
}

// Puts three live segments and one that isn't.
fn put_four(index: &mut SegmentIndex, alloc: Global) -> Result<(), NoMemory> {
    put(index, alloc, 7, 1, [1, 2, 3])?;
    put(index, alloc, 0, 1, [3, 4, 5])?;
    put(index, alloc, 5, 0, [1, 2, 3])?;
    put(index, alloc, 9, 2, [6, 7, 3])
}

// How many there are, and what is found by place and by node.
#[derive(Clone, Copy, PartialEq, Eq)]
struct Finds {
    counts: [usize; 2],
    ids: [Option<u64>; 7],
}

fn find_in(index: &mut SegmentIndex, alloc: Global) -> Result<Finds, NoMemory> {
    put_four(index, alloc)?;
    Ok(Finds {
        counts: [index.len(), index.live_len()],
        ids: [
            id(index.live_at(1)),
            id(index.live_at(3)),
            id(index.get(SegId(5))),
            id(index.first_at(NodeId(3))),
            id(index.first_at(NodeId(2))),
            id(index.next_at(NodeId(3), SegId(7))),
            id(index.next_at(NodeId(3), SegId(9))),
        ],
    })
}

fn find_all(alloc: Global) -> Result<Finds, NoMemory> {
    let mut index = SegmentIndex::new(alloc, LIMITS);
    find_in(&mut index, alloc)
}

#[test]
fn finds_segments_by_place_and_node(rt: HostRuntime) {
    let wanted = Finds {
        counts: [4, 3],
        ids: [Some(7), None, Some(5), Some(0), Some(7), Some(9), None],
    };
    assert!(rt; find_all(rt.alloc()) == Ok(wanted));
}

// The segments to repair, one after another.
fn repair(index: &mut SegmentIndex, alloc: Global) -> Result<[Option<u64>; 5], NoMemory> {
    put_four(index, alloc)?;
    let whole = id(index.least());
    lose(index, 7)?;
    let first = id(index.least());
    lose(index, 2)?;
    let lower = id(index.least());
    put(index, alloc, 7, 2, [1, 4, 3])?;
    let mended = id(index.least());
    index.remove(SegId(9));
    Ok([whole, first, lower, mended, id(index.least())])
}

fn repaired(alloc: Global) -> Result<[Option<u64>; 5], NoMemory> {
    let mut index = SegmentIndex::new(alloc, LIMITS);
    repair(&mut index, alloc)
}

#[test]
fn finds_the_one_to_repair(rt: HostRuntime) {
    let wanted = [None, Some(9), Some(7), Some(9), None];
    assert!(rt; repaired(rt.alloc()) == Ok(wanted));
}

// Two segments, the lower id first.
fn both(alloc: Global, lower: Segment, higher: Segment) -> Result<Vec<Segment>, NoMemory>
    requires { lower.id.0 < higher.id.0 }
    ensures { IfOk result (λ segments. IsRising segment_rank segments.items) }
{
    let mut segments = Vec::new(alloc);
    segments.push(lower)?;
    segments.push(higher)?;
    Ok(segments)
}

// Two segments with two healthy pieces each.
fn two(alloc: Global) -> Result<SegmentIndex, NoMemory> {
    let lower = segment(alloc, 2, 1, [1, 2, 3])?;
    let higher = segment(alloc, 3, 1, [2, 3, 4])?;
    let segments = both(alloc, lower, higher)?;
    SegmentIndex::of(alloc, LIMITS, segments, &[NodeId(4), NodeId(1)])
}

// Makes room for one segment more, and gives it back.
fn place_and_release(index: &mut SegmentIndex, alloc: Global) -> Result<(), NoMemory> {
    let unput = segment(alloc, 8, 1, [5, 6, 1])?;
    index.place(&unput)?;
    index.release(&unput);
    Ok(())
}

// The segments to repair before and after a loss, the first at node 2, and how many there are.
fn look(index: &mut SegmentIndex, alloc: Global) -> Result<([Option<u64>; 3], usize), NoMemory> {
    let lower = id(index.least());
    let first = id(index.first_at(NodeId(2)));
    place_and_release(index, alloc)?;
    lose(index, 2)?;
    Ok(([lower, first, id(index.least())], index.len()))
}

fn opened(alloc: Global) -> Result<([Option<u64>; 3], usize), NoMemory> {
    let mut index = two(alloc)?;
    look(&mut index, alloc)
}

#[test]
fn opens_with_nodes_that_are_gone(rt: HostRuntime) {
    let wanted = ([Some(2), Some(2), None], 2);
    assert!(rt; opened(rt.alloc()) == Ok(wanted));
}
